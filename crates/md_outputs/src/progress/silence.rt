// How long a client is silent.
use std::sync::atomic::{AtomicU64, Ordering};

// A request that comes so long after the one before has the marks cleared first, as the kernel clears them of an array at rest.
const MILLISECONDS: u64 = 5000;

/// When the last request of a client came, in milliseconds.
#[derive(Drop)]
pub struct Silence {
    last: AtomicU64,
}

impl Silence {
    pub fn new() -> Silence {
        Silence {
            last: AtomicU64::new(0),
        }
    }

    /// A request has come: whether it came late after the last one.
    pub fn ends(&self, now: u64) -> bool {
        let last = self.last.swap(now, Ordering::SeqCst);
        now.saturating_sub(last) >= MILLISECONDS
    }
}
