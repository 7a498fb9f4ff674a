// How far a write piece by piece is.
use crate::progress::pace::Pace;
use std::alloc::{AllocError, Global};
use std::string::String;
use std::sync::atomic::{AtomicU64, Ordering};

const SECTORS_OF_MIB: u64 = 2048;

const SECTOR: u64 = 512;

/// How far a write piece by piece is: the sectors of its input, since when they are written, and how many of them stand.
#[derive(Drop)]
pub struct WriteProgress {
    pace: Pace,
    sectors: AtomicU64,
    standing: AtomicU64,
}

impl WriteProgress {
    pub fn new() -> WriteProgress {
        WriteProgress {
            pace: Pace::new(),
            sectors: AtomicU64::new(0),
            standing: AtomicU64::new(0),
        }
    }

    /// So many sectors are to be written from now on.
    pub fn begin(&self, sectors: u64, now: u64) {
        self.sectors.store(sectors, Ordering::SeqCst);
        self.pace.begin(now, 0);
    }

    /// So many of them stand.
    pub fn go_on(&self, sectors: u64) {
        self.standing.store(sectors, Ordering::SeqCst);
    }

    /// How many sectors stand of an input that is not written to its end; 0 where none do, and where all do.
    pub fn sectors_standing(&self) -> u64 {
        let standing = self.standing.load(Ordering::SeqCst);
        if standing < self.sectors.load(Ordering::SeqCst) {
            standing
        } else {
            0
        }
    }

    /// How far it is: what stands of all, per second, and the time that is left; nothing before it has begun.
    pub fn line(&self, alloc: Global, now: u64) -> Option<Result<String, AllocError>> {
        if !self.pace.has_begun() {
            return None;
        }
        let all = self.sectors.load(Ordering::SeqCst);
        let done = self.standing.load(Ordering::SeqCst);
        let (of_all, so_far) = (all / SECTORS_OF_MIB, done / SECTORS_OF_MIB);
        if done == 0 {
            return Some(format!(in alloc; "0 of {of_all} MiB"));
        }
        let speed = self.pace.speed(now, done.saturating_mul(SECTOR));
        let left = self.pace.time_left(now, done, all);
        Some(format!(in alloc;
            "{so_far} of {of_all} MiB, {speed} MiB/s, {} min {} s left",
            left / 60,
            left % 60
        ))
    }
}
