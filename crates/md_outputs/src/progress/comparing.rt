// How far a check is.
use crate::progress::pace::Pace;
use std::alloc::{AllocError, Global};
use std::string::String;
use std::sync::atomic::{AtomicU64, Ordering};

const MIB: u64 = 1 << 20;

const SECTOR: u64 = 512;

/// How far a check is: the bytes that are to be read of all members, and since when.
#[derive(Drop)]
pub struct Comparing {
    pace: Pace,
    bytes: AtomicU64,
}

impl Comparing {
    pub fn new() -> Comparing {
        Comparing {
            pace: Pace::new(),
            bytes: AtomicU64::new(0),
        }
    }

    /// So many sectors are to be read from now on.
    pub fn begin(&self, sectors: u64, now: u64, read: u64) {
        let bytes = sectors.saturating_mul(SECTOR);
        self.bytes.store(bytes, Ordering::SeqCst);
        self.pace.begin(now, read);
    }

    pub fn has_begun(&self) -> bool {
        self.pace.has_begun()
    }

    /// How far it is: bytes read of all, bytes per second, and the time that is left.
    pub fn line(&self, alloc: Global, now: u64, read: u64) -> Result<String, AllocError> {
        let bytes = self.bytes.load(Ordering::SeqCst);
        let done = self.pace.read_since(read).min(bytes);
        let left = self.pace.time_left(now, done / SECTOR, bytes / SECTOR);
        format!(in alloc;
            "{} of {} MiB, {} MiB/s, {} min {} s left",
            done / MIB,
            bytes / MIB,
            self.pace.speed(now, read),
            left / 60,
            left % 60
        )
    }
}
