// How fast a task goes.
ghost use Rattle.std.specs.Prelude.{◌<◌};

use std::sync::atomic::{AtomicBool, AtomicU64, Ordering};

const MIB: u64 = 1 << 20;

/// When a task began, and how many bytes the program had read by then. Workers ask at once.
#[derive(Drop)]
pub struct Pace {
    has_begun: AtomicBool,
    // In milliseconds after the program began.
    began: AtomicU64,
    read_before: AtomicU64,
}

impl Pace {
    pub fn new() -> Pace {
        Pace {
            has_begun: AtomicBool::new(false),
            began: AtomicU64::new(0),
            read_before: AtomicU64::new(0),
        }
    }

    pub fn begin(&self, now: u64, read: u64) {
        self.began.store(now, Ordering::SeqCst);
        self.read_before.store(read, Ordering::SeqCst);
        self.has_begun.store(true, Ordering::SeqCst);
    }

    pub fn has_begun(&self) -> bool {
        self.has_begun.load(Ordering::SeqCst)
    }

    /// The bytes that were read since it began, where the program has read so many.
    pub fn read_since(&self, read: u64) -> u64 {
        read.saturating_sub(self.read_before.load(Ordering::SeqCst))
    }

    /// How many MiB a second that is.
    pub fn speed(&self, now: u64, read: u64) -> u64 {
        self.read_since(read).saturating_mul(1000) / self.elapsed_time(now) / MIB
    }

    /// How many seconds are left, where so much is done of all.
    pub fn time_left(&self, now: u64, done: u64, all: u64) -> u64 {
        let rest = all.saturating_sub(done);
        self.elapsed_time(now).saturating_mul(rest) / done.max(1) / 1000
    }

    // In milliseconds.
    fn elapsed_time(&self, now: u64) -> u64
        ensures { 0 < result }
    {
        now.saturating_sub(self.began.load(Ordering::SeqCst)).max(1)
    }
}
