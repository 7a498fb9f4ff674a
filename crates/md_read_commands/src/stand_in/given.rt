// A sector is read from a member whose superblock was made in memory.
ghost use Rattle.std.specs.Prelude.{◌≡◌, ◌<◌, length};
ghost use Rattle.md_inflight.specs.Requests.Pending.{PendingView};
ghost use Rattle.md_state.specs.Requests.{IsPending};
ghost use Rattle.md_array.specs.Consistency.{IsConsistent};
ghost use Rattle.md_read_commands.specs.Others.{AsksStandIn, AsksStandIns};

use crate::others::lists;
use crate::stand_in::made::is_stand_in;
use md_array::Mirror;
use md_device::Device;

/// Reads a sector from the first member that gives it whose superblock was made in memory.
pub(crate) fn read_stand_ins<D: Device + Drop>(
    mirror: &mut Mirror<D>,
    sector: u64,
    block: &mut [u8],
) -> bool
    requires one { length block.old ≡ 512 }
    requires inside { sector < mirror.old.array.chunks.size }
    requires sound { IsConsistent mirror.old }
    ensures gives { AsksStandIns sector block.new mirror.old mirror.new result }
    ensures sound { IsConsistent mirror.new }
    ensures pending { (p : PendingView) → IsPending mirror.old.array p → IsPending mirror.new.array p }
{
    for k in 0..mirror.members() {
        if read_stand_in(mirror, k, sector, block) {
            return true;
        }
    }
    false
}

// Reads a sector from member k, if its superblock was made in memory and its log does not list the sector.
fn read_stand_in<D: Device + Drop>(
    mirror: &mut Mirror<D>,
    k: usize,
    sector: u64,
    block: &mut [u8],
) -> bool
    requires within { k < length mirror.old.array.members }
    requires one { length block.old ≡ 512 }
    requires inside { sector < mirror.old.array.chunks.size }
    requires sound { IsConsistent mirror.old }
    ensures gives { AsksStandIn k sector block.new mirror.old mirror.new result }
    ensures sound { IsConsistent mirror.new }
    ensures pending { (p : PendingView) → IsPending mirror.old.array p → IsPending mirror.new.array p }
{
    if !is_stand_in(mirror.state(k), mirror.own(k)) {
        return false;
    }
    if lists(mirror, k, sector) {
        return false;
    }
    mirror.read_data(k, sector, block).is_ok()
}
