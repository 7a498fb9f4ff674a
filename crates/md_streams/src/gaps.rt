// Which sectors were not given in the way in which they were read.
ghost use Rattle.md_streams.specs.Gaps.{HasNoGaps};

use md_badblocks::BadSet;
use std::alloc::Global;

/// The sectors that a read which fills was not given in its way: those in whose place zeros stand, and those that are another
/// member's.
#[derive(Drop)]
pub struct Gaps {
    pub missing: BadSet,
    pub others: BadSet,
}

impl Gaps {
    /// No sector of either kind.
    pub fn none(alloc: Global) -> Gaps
        ensures { HasNoGaps result }
    {
        Gaps {
            missing: BadSet::new(alloc),
            others: BadSet::new(alloc),
        }
    }
}
