// Which sectors a read does not get, as it goes on.
use md_badblocks::{BadSet, Run};
use md_streams::Gaps;
use std::alloc::{AllocError, Global};
use std::sync::Mutex;
use std::sync::atomic::{AtomicBool, Ordering};

/// The sectors of an array that are not given, as far as they are told. Whoever keeps what is put out asks for them before it is all. It
/// is used by one thread alone: where another has it nothing is known any more.
#[derive(Drop)]
pub struct Lacking {
    alloc: Global,
    gaps: Mutex<Gaps>,
    // Whether all are noted that were told.
    is_whole: AtomicBool,
}

impl Lacking {
    /// None is told yet.
    pub fn new(alloc: Global) -> Lacking {
        Lacking {
            alloc,
            gaps: Mutex::new(Gaps::none(alloc)),
            is_whole: AtomicBool::new(true),
        }
    }

    /// These are missing too, and these others are another member's.
    pub fn add(&self, missing: &[Run], others: &[Run]) {
        let added = match self.gaps.try_lock() {
            Some(mut gaps) => add_gaps(&mut gaps, missing, others).is_ok(),
            None => false,
        };
        if !added {
            self.is_whole.store(false, Ordering::SeqCst);
        }
    }

    /// All that are told so far, unless there was no memory for one of them or is none now.
    pub(crate) fn all(&self) -> Result<Gaps, AllocError> {
        if !self.is_whole.load(Ordering::SeqCst) {
            return Err(AllocError);
        }
        match self.gaps.try_lock() {
            Some(gaps) => copy_of(self.alloc, &gaps),
            None => Err(AllocError),
        }
    }
}

/// A copy of these sectors.
pub(crate) fn copy_of(alloc: Global, gaps: &Gaps) -> Result<Gaps, AllocError> {
    let mut copy = Gaps::none(alloc);
    add_gaps(&mut copy, gaps.missing.runs(), gaps.others.runs())?;
    Ok(copy)
}

fn add_gaps(gaps: &mut Gaps, missing: &[Run], others: &[Run]) -> Result<(), AllocError> {
    add_all(&mut gaps.missing, missing)?;
    add_all(&mut gaps.others, others)
}

fn add_all(set: &mut BadSet, runs: &[Run]) -> Result<(), AllocError> {
    for run in runs {
        set.add(run.start, run.len)?;
    }
    Ok(())
}
