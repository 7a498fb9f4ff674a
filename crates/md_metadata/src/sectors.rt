// Storing a sector of a member's bitmap.
ghost use Rattle.std.specs.Prelude.{◌≡◌, ◌<◌, MatchResult, length, true, false};
ghost use Rattle.md_members.specs.Areas.{bitmap_sectors};
ghost use Rattle.md_assembly.specs.States.{is_in_sync};
ghost use Rattle.md_kept_members.specs.View.{MemberView};
ghost use Rattle.md_state.specs.Members.{IsMember};
ghost use Rattle.md_array.specs.Consistency.{IsConsistent};
ghost use Rattle.md_array.specs.InTurn.{IsSectorDue};
ghost use Rattle.md_metadata.specs.Storing.{SectorFails, StoresOn};

use crate::fault::PartFault;
use md_array::{Mirror, StoreFault};
use md_device::Device;

/// Stores a sector of the bitmap of member k, which is in sync. Some mark of it has to be stored, or it is
/// the first one, and the member's superblock comes next. Takes no memory.
pub fn store_sector<D: Device + Drop>(
    mirror: &mut Mirror<D>,
    k: usize,
    block: u32,
) -> Result<(), PartFault>
    requires within { k < length mirror.old.array.members }
    requires block { block < bitmap_sectors mirror.old.array.marks.chunks }
    requires sound { IsConsistent mirror.old }
    requires running { mirror.old.array.halted ≡ false }
    requires in_sync { (m : MemberView) → IsMember mirror.old.array k m → is_in_sync m.state ≡ true }
    requires due { IsSectorDue mirror.old.array k block }
    ensures { MatchResult result (λ _. StoresOn k block mirror.old mirror.new) (SectorFails k block mirror.old mirror.new) }
{
    match mirror.store_marks(k, block) {
        Ok(()) => Ok(()),
        Err(StoreFault::MemberFailed(j)) => Err(PartFault::MemberFailed(j)),
        Err(StoreFault::Halted) => Err(PartFault::Halted),
        // It can't be: the member is in sync.
        Err(StoreFault::NotActive) => Err(PartFault::Halted),
    }
}
