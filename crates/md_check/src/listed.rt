// The bad blocks of a member as sectors of the array.
ghost use Rattle.std.specs.Prelude.{◌+◌, ◌↔◌, ℕ, IfOk};
ghost use Rattle.md_badblocks.specs.Runs.{IsBad};

use md_badblocks::BadSet;
use std::alloc::{AllocError, Global};

/// The sectors of the array that a member lists whose data start at this sector of its device.
pub(crate) fn listed_from(alloc: Global, bad: &BadSet, offset: u64) -> Result<BadSet, AllocError>
    ensures { IfOk result (λ listed. (s : ℕ) → IsBad listed s ↔ IsBad bad.now (offset + s)) }
{
    let mut listed = BadSet::new(alloc);
    for run in bad.runs() {
        let start = run.start.saturating_sub(offset);
        let end = run.end().saturating_sub(offset);
        listed.add(start, end - start)?;
    }
    Ok(listed)
}
