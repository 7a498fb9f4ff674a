// How much a read has to read.
use std::sync::atomic::{AtomicBool, AtomicU64, Ordering};

/// How many sectors of the array are to be read, once that is known. Workers ask at once.
#[derive(Drop)]
pub struct ReadLength {
    has_begun: AtomicBool,
    sectors: AtomicU64,
}

impl ReadLength {
    pub fn new() -> ReadLength {
        ReadLength {
            has_begun: AtomicBool::new(false),
            sectors: AtomicU64::new(0),
        }
    }

    /// So many sectors are to be read from now on.
    pub fn begin(&self, sectors: u64) {
        self.sectors.store(sectors, Ordering::SeqCst);
        self.has_begun.store(true, Ordering::SeqCst);
    }

    pub fn has_begun(&self) -> bool {
        self.has_begun.load(Ordering::SeqCst)
    }

    /// 0 before it has begun.
    pub fn sectors(&self) -> u64 {
        self.sectors.load(Ordering::SeqCst)
    }
}
