// Sectors of the array in a member's list of bad blocks. The array's sectors begin on the member's device at the offset.
ghost use Rattle.std.specs.Prelude.{◌≡◌, ◌⊎◌, ◌↔◌, ◌<◌, ◌^◌, ℕ, IfOk, OnOk};
ghost use Rattle.std.specs.Int.{div_ceil};
ghost use Rattle.md_badblocks.specs.Runs.{IsBad, IsCanonical};
ghost use Rattle.md_kept_members.specs.SectorLists.{IsListMore, IsListOf, IsPlaced, in_chunks_but, in_runs};
ghost use Rattle.md_kept_members.specs.View.{MemberView};

use crate::bad_lists::remove_chunks;
use md_badblocks::BadSet;
use md_bitmap::{Chunks, Marks};
use std::alloc::{AllocError, Global};

/// The list of a member with these sectors of the array too.
pub fn list_with_sectors(
    alloc: Global,
    bad: &BadSet,
    offset: u64,
    sectors: &BadSet,
) -> Result<BadSet, AllocError>
    ensures { (m : MemberView) → m.bad ≡ bad.now → m.superblock.data_offset ≡ offset → IfOk result (IsListMore (in_runs sectors.now) m) }
{
    let mut list = bad.try_clone(alloc)?;
    add_sectors(&mut list, offset, sectors)?;
    Ok(list)
}

/// The list of a member of which these chunks were copied, but for the lost sectors of the array.
pub fn list_but_for(
    alloc: Global,
    bad: &BadSet,
    offset: u64,
    chunks: Chunks,
    copied: &Marks,
    lost: &BadSet,
) -> Result<BadSet, AllocError>
    requires { copied.now.chunks ≡ div_ceil chunks.size chunks.sectors }
    ensures { (m : MemberView) → m.bad ≡ bad.now → m.superblock.data_offset ≡ offset
        → IfOk result (IsListOf (in_chunks_but chunks copied.now lost.now) (in_runs lost.now) m) }
{
    let mut list = bad.try_clone(alloc)?;
    remove_chunks(&mut list, chunks, offset, copied)?;
    add_sectors(&mut list, offset, lost)?;
    Ok(list)
}

/// Adds these sectors of the array. They begin on the device at the offset. No list has sectors from 2^54 on.
pub fn add_sectors(list: &mut BadSet, offset: u64, sectors: &BadSet) -> Result<(), AllocError>
    requires { IsCanonical list.old }
    ensures canonical { IsCanonical list.new }
    ensures bad { OnOk result ((sector : ℕ) → IsBad list.new sector ↔ (IsBad list.old sector ⊎ (IsPlaced (in_runs sectors.now) offset sector × (sector < 2 ^ 54)))) }
{
    for run in sectors.runs() {
        list.add(offset.saturating_add(run.start), run.len)?;
    }
    Ok(())
}
