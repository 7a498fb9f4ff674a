// Which sectors of the array lie in marked chunks.
ghost use Rattle.std.specs.Prelude.{◌≡◌, ◌↔◌, ℕ, IfOk, false, true};
ghost use Rattle.md_array.specs.Consistency.{IsConsistent};
ghost use Rattle.md_badblocks.specs.Runs.{IsBad, IsCanonical};
ghost use Rattle.md_kept_members.specs.SectorLists.{in_chunks};

use crate::lists::given_sectors::remove_placed;
use md_array::Mirror;
use md_badblocks::BadSet;
use md_device::Device;
use md_kept_members::remove_chunks;
use std::alloc::{AllocError, Global};

/// Which of these sectors of the array lie in marked chunks.
pub(crate) fn marked_sectors<D: Device + Drop>(
    alloc: Global,
    mirror: &Mirror<D>,
    sectors: &BadSet,
) -> Result<BadSet, AllocError>
    requires sound { IsConsistent mirror.now }
    ensures { IfOk result (λ marked. (s : ℕ) → IsBad marked s
        ↔ (IsBad sectors.now s × (in_chunks mirror.now.array.chunks mirror.now.array.marks s ≡ true))) }
{
    let rest = unmarked_sectors(alloc, mirror, sectors)?;
    let mut marked = sectors.try_clone(alloc)?;
    remove_placed(&mut marked, 0, &rest)?;
    Ok(marked)
}

/// Which of these sectors of the array lie in no marked chunk.
pub(crate) fn unmarked_sectors<D: Device + Drop>(
    alloc: Global,
    mirror: &Mirror<D>,
    sectors: &BadSet,
) -> Result<BadSet, AllocError>
    requires sound { IsConsistent mirror.now }
    ensures canonical { IfOk result IsCanonical }
    ensures unmarked { IfOk result (λ rest. (s : ℕ) → IsBad rest s
        ↔ (IsBad sectors.now s × (in_chunks mirror.now.array.chunks mirror.now.array.marks s ≡ false))) }
{
    let mut rest = sectors.try_clone(alloc)?;
    remove_chunks(&mut rest, mirror.chunks(), 0, mirror.marks())?;
    Ok(rest)
}
