// Storing the marks of a request.
ghost use Rattle.std.specs.Prelude.{◌≡◌, ◌+◌, ◌-◌, ◌<◌, ◌≤◌, MatchResult, length, false};
ghost use Rattle.md_members.specs.Areas.{bitmap_sectors};
ghost use Rattle.md_state.specs.Steps.WriteMember.{HasMarksFrom};
ghost use Rattle.md_array.specs.Consistency.{IsConsistent};
ghost use Rattle.md_metadata.specs.Storing.{StoresAll, StoresAt, StoringFails};
ghost use Rattle.md_write.specs.Progress.{AreMarkedInMemory, HasBitsOf, HasMarksIn, IsMarkingOf};

use crate::chunks::{block_of, chunks_in};
use md_array::Mirror;
use md_device::Device;
use md_metadata::{PartFault, store_sector};

// Stores a sector of the bitmap of member k, if the member is in sync and lacks one of the marks of these chunks there.
fn store_lacking<D: Device + Drop>(
    mirror: &mut Mirror<D>,
    k: usize,
    block: u32,
    first: u32,
    end: u32,
) -> Result<(), PartFault>
    requires within { k < length mirror.old.array.members }
    requires block { block < bitmap_sectors mirror.old.array.marks.chunks }
    requires bits { HasBitsOf first end block }
    requires sound { IsConsistent mirror.old }
    requires running { mirror.old.array.halted ≡ false }
    requires marked { AreMarkedInMemory mirror.old.array first end }
    ensures { MatchResult result (λ _. StoresAt (IsMarkingOf first end) k (HasMarksIn block first end) mirror.old mirror.new) (StoringFails (IsMarkingOf first end) mirror.old mirror.new) }
{
    if !mirror.state(k).is_in_sync() {
        return Ok(());
    }
    let (from, to) = chunks_in(block, first, end);
    if mirror.has_marks(k, from, to) {
        return Ok(());
    }
    store_sector(mirror, k, block)
}

// Stores the marks of these chunks on member k, if it is in sync.
fn store_marks_of_member<D: Device + Drop>(
    mirror: &mut Mirror<D>,
    k: usize,
    first: u32,
    end: u32,
) -> Result<(), PartFault>
    requires within { k < length mirror.old.array.members }
    requires sound { IsConsistent mirror.old }
    requires running { mirror.old.array.halted ≡ false }
    requires marked { AreMarkedInMemory mirror.old.array first end }
    ensures { MatchResult result (λ _. StoresAt (IsMarkingOf first end) k (HasMarksFrom first end) mirror.old mirror.new) (StoringFails (IsMarkingOf first end) mirror.old mirror.new) }
{
    for block in block_of(first)..block_of(end - 1) + 1 {
        store_lacking(mirror, k, block, first, end)?;
    }
    Ok(())
}

/// Stores the marks of these chunks on each member in sync that lacks one of them.
pub(crate) fn store_marks_of_chunks<D: Device + Drop>(
    mirror: &mut Mirror<D>,
    first: u32,
    end: u32,
) -> Result<(), PartFault>
    requires sound { IsConsistent mirror.old }
    requires running { mirror.old.array.halted ≡ false }
    requires marked { AreMarkedInMemory mirror.old.array first end }
    ensures { MatchResult result (λ _. StoresAll (IsMarkingOf first end) (HasMarksFrom first end) mirror.old mirror.new) (StoringFails (IsMarkingOf first end) mirror.old mirror.new) }
{
    for k in 0..mirror.members() {
        store_marks_of_member(mirror, k, first, end)?;
    }
    Ok(())
}
