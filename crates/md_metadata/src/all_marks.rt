// Storing all marks as they are in memory.
ghost use Rattle.std.specs.Prelude.{◌≡◌, ◌<◌, IfErr, MatchResult, length, false};
ghost use Rattle.md_members.specs.Areas.{bitmap_sectors};
ghost use Rattle.md_array.specs.Consistency.{IsConsistent};
ghost use Rattle.md_array.specs.InTurn.{HasSector};
ghost use Rattle.md_metadata.specs.Storing.{FailsInSync, HasAllMarks, IsMarking, StoresAll, StoresAt, StoringFails};

use crate::fault::PartFault;
use crate::sectors::store_sector;
use md_array::Mirror;
use md_bitmap::sectors_of_bitmap;
use md_device::Device;

// Stores a sector of the bitmap of member k, if the member is in sync and has other bits stored there than those in memory.
fn store_unlike<D: Device + Drop>(
    mirror: &mut Mirror<D>,
    k: usize,
    block: u32,
) -> Result<(), PartFault>
    requires within { k < length mirror.old.array.members }
    requires block { block < bitmap_sectors mirror.old.array.marks.chunks }
    requires sound { IsConsistent mirror.old }
    requires running { mirror.old.array.halted ≡ false }
    ensures gives { MatchResult result (λ _. StoresAt IsMarking k (HasSector mirror.old.array block) mirror.old mirror.new) (StoringFails IsMarking mirror.old mirror.new) }
    ensures in_sync { IfErr result (FailsInSync mirror.old.array) }
{
    if !mirror.state(k).is_in_sync() || mirror.has_sector(k, block) {
        return Ok(());
    }
    store_sector(mirror, k, block)
}

// Stores the marks of member k, if it is in sync, sector by sector.
fn store_member_marks<D: Device + Drop>(mirror: &mut Mirror<D>, k: usize) -> Result<(), PartFault>
    requires within { k < length mirror.old.array.members }
    requires sound { IsConsistent mirror.old }
    requires running { mirror.old.array.halted ≡ false }
    ensures gives { MatchResult result (λ _. StoresAt IsMarking k (HasAllMarks mirror.old.array.marks) mirror.old mirror.new) (StoringFails IsMarking mirror.old mirror.new) }
    ensures in_sync { IfErr result (FailsInSync mirror.old.array) }
{
    for block in 0..sectors_of_bitmap(mirror.marks().chunks()) {
        store_unlike(mirror, k, block)?;
    }
    Ok(())
}

/// Stores the marks on each member in sync, by index and from the first sector on, where another bit is stored
/// than the one in memory. Takes no memory.
pub fn store_all_marks<D: Device + Drop>(mirror: &mut Mirror<D>) -> Result<(), PartFault>
    requires sound { IsConsistent mirror.old }
    requires running { mirror.old.array.halted ≡ false }
    ensures gives { MatchResult result (λ _. StoresAll IsMarking (HasAllMarks mirror.old.array.marks) mirror.old mirror.new) (StoringFails IsMarking mirror.old mirror.new) }
    ensures in_sync { IfErr result (FailsInSync mirror.old.array) }
{
    for k in 0..mirror.members() {
        store_member_marks(mirror, k)?;
    }
    Ok(())
}
