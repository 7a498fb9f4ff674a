// Gates: what is told before and after each read of a chunk.
ghost use Rattle.std.specs.Prelude.{⊤};

use md_streams::Gate;
use std::sync::atomic::{AtomicBool, AtomicU64, Ordering};

// Does nothing.
pub(crate) struct Silent;

impl Gate for Silent {
    ghost read_begins = { λ _ _ _. ⊤ };

    ghost read_ended = { λ _ _ _. ⊤ };

    fn before_read(&self, _source: u8, _chunk: u32) {}

    fn after_read(&self, _source: u8, _chunk: u32) {}
}

// Counts the reads that began and that ended, and adds up roles and chunks.
#[derive(Drop)]
pub(crate) struct Counting {
    begun: AtomicU64,
    ended: AtomicU64,
    sources: AtomicU64,
    chunks: AtomicU64,
}

impl Counting {
    pub(crate) fn new() -> Counting {
        Counting {
            begun: AtomicU64::new(0),
            ended: AtomicU64::new(0),
            sources: AtomicU64::new(0),
            chunks: AtomicU64::new(0),
        }
    }

    // How many reads began and ended, and the sums of their roles and chunks.
    pub(crate) fn sums(&self) -> [u64; 4] {
        [
            self.begun.load(Ordering::SeqCst),
            self.ended.load(Ordering::SeqCst),
            self.sources.load(Ordering::SeqCst),
            self.chunks.load(Ordering::SeqCst),
        ]
    }
}

impl Gate for Counting {
    ghost read_begins = { λ _ _ _. ⊤ };

    ghost read_ended = { λ _ _ _. ⊤ };

    fn before_read(&self, source: u8, chunk: u32) {
        self.begun.fetch_add(1, Ordering::SeqCst);
        self.sources.fetch_add(u64::from(source), Ordering::SeqCst);
        self.chunks.fetch_add(u64::from(chunk), Ordering::SeqCst);
    }

    fn after_read(&self, _source: u8, _chunk: u32) {
        self.ended.fetch_add(1, Ordering::SeqCst);
    }
}

// How often a source looks whether the other one has begun.
const LOOKS: u32 = 1_000_000_000;

// Holds the first read of each of two sources until that of the other has begun.
#[derive(Drop)]
pub(crate) struct Meeting {
    first: AtomicBool,
    second: AtomicBool,
    missed: AtomicBool,
}

impl Meeting {
    pub(crate) fn new() -> Meeting {
        Meeting {
            first: AtomicBool::new(false),
            second: AtomicBool::new(false),
            missed: AtomicBool::new(false),
        }
    }

    pub(crate) fn have_met(&self) -> bool {
        self.first.load(Ordering::SeqCst)
            && self.second.load(Ordering::SeqCst)
            && !self.missed.load(Ordering::SeqCst)
    }
}

// Waits until it is set; false where it stays unset.
fn comes(flag: &AtomicBool) -> bool {
    for _ in 0..LOOKS {
        if flag.load(Ordering::SeqCst) {
            return true;
        }
    }
    false
}

impl Gate for Meeting {
    ghost read_begins = { λ _ _ _. ⊤ };

    ghost read_ended = { λ _ _ _. ⊤ };

    fn before_read(&self, source: u8, _chunk: u32) {
        let (own, other) = if source == 0 {
            (&self.first, &self.second)
        } else {
            (&self.second, &self.first)
        };
        own.store(true, Ordering::SeqCst);
        if !comes(other) {
            self.missed.store(true, Ordering::SeqCst);
        }
    }

    fn after_read(&self, _source: u8, _chunk: u32) {}
}
