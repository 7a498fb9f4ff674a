// How many writes devices that crash together have been given.
use std::alloc::{AllocError, Global};
use std::marker::Model;
use std::sync::Arc;
use std::sync::atomic::{AtomicU64, Ordering};

/// A count of writes that its holders share, and how many of them pass. Threads may count at once, so that contracts say
/// nothing of it.
#[derive(Drop)]
pub struct Fuse {
    seen: Arc<AtomicU64, Global>,
    writes: u64,
}

impl Model for Fuse {
    ghost Value = { Unit {0} };

    ghost view = { λ _. tt };
}

/// What becomes of a write.
#[derive(Clone, Copy)]
pub(crate) enum Passage {
    Passes,
    /// It is the one at which the devices crash.
    Crashes,
    /// They have crashed before.
    Fails,
}

impl Fuse {
    /// A count that lets this many writes pass. `AllocError` comes only where its memory was refused.
    pub fn new(alloc: Global, writes: u64) -> Result<Fuse, AllocError> {
        let seen = Arc::new(alloc, AtomicU64::new(0))?;
        Ok(Fuse { seen, writes })
    }

    /// Shares the count with one more holder, as a device that crashes with the others. `AllocError` comes only
    /// where the count has as many holders as a `usize` counts.
    pub fn share(&self) -> Result<Fuse, AllocError> {
        let seen = Arc::try_clone(&self.seen)?;
        Ok(Fuse {
            seen,
            writes: self.writes,
        })
    }

    /// Counts one more write.
    pub(crate) fn pass(&self) -> Passage {
        let before = self.seen.fetch_add(1, Ordering::SeqCst);
        if before < self.writes {
            Passage::Passes
        } else if before == self.writes {
            Passage::Crashes
        } else {
            Passage::Fails
        }
    }
}
