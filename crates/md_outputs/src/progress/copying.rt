// How far a rebuild is.
use crate::progress::pace::Pace;
use std::alloc::{AllocError, Global};
use std::string::String;
use std::sync::atomic::{AtomicU64, Ordering};

/// How far a rebuild is: the chunks that it has to copy and the first of them, how often one was read, and how often
/// that failed. Its workers count at once.
#[derive(Drop)]
pub struct Copying {
    pace: Pace,
    chunks: AtomicU64,
    first: AtomicU64,
    tried: AtomicU64,
    failed: AtomicU64,
}

impl Copying {
    pub fn new() -> Copying {
        Copying {
            pace: Pace::new(),
            chunks: AtomicU64::new(0),
            first: AtomicU64::new(0),
            tried: AtomicU64::new(0),
            failed: AtomicU64::new(0),
        }
    }

    /// So many chunks are to be copied from now on, of which this is the first.
    pub fn begin(&self, chunks: u32, first: u32, now: u64, read: u64) {
        self.chunks.store(chunks as u64, Ordering::SeqCst);
        self.first.store(first as u64, Ordering::SeqCst);
        self.pace.begin(now, read);
    }

    pub fn has_begun(&self) -> bool {
        self.pace.has_begun()
    }

    /// A read of one chunk has ended.
    pub fn count(&self) {
        self.tried.fetch_add(1, Ordering::SeqCst);
    }

    /// One has failed. What is read before the rebuild begins are no chunks of it.
    pub fn count_failed(&self) {
        if self.has_begun() {
            self.failed.fetch_add(1, Ordering::SeqCst);
        }
    }

    /// How far it is: chunks done of all, how many were found bad on a member, bytes per second, and the time
    /// that is left; nothing before it begins. A chunk that is read again from another member counts once.
    pub fn line(&self, alloc: Global, now: u64, read: u64) -> Option<Result<String, AllocError>> {
        if !self.has_begun() {
            return None;
        }
        let chunks = self.chunks.load(Ordering::SeqCst);
        let failed = self.failed.load(Ordering::SeqCst);
        let tried = self.tried.load(Ordering::SeqCst);
        let done = tried.saturating_sub(failed).min(chunks);
        let (from, bad) = match self.beside(alloc, failed) {
            Ok(beside) => beside,
            Err(refused) => return Some(Err(refused)),
        };
        if done == 0 {
            return Some(format!(in alloc; "{from}0 of {chunks} chunks{bad}"));
        }
        let left = self.pace.time_left(now, done, chunks);
        Some(format!(in alloc;
            "{from}{done} of {chunks} chunks{bad}, {} MiB/s, {} min {} s left",
            self.pace.speed(now, read),
            left / 60,
            left % 60
        ))
    }

    // Where it goes on from, if that is not the first chunk of the array, and how many were found bad, if some were.
    fn beside(&self, alloc: Global, bad: u64) -> Result<(String, String), AllocError> {
        let first = self.first.load(Ordering::SeqCst);
        let from = match first {
            0 => String::new(alloc),
            _ => format!(in alloc; "from chunk {first}, ")?,
        };
        let bad = match bad {
            0 => String::new(alloc),
            _ => format!(in alloc; ", {bad} bad")?,
        };
        Ok((from, bad))
    }
}
