// A sector that was not given is read from another member: where it was to come from the one that a resync copies it from, from
// another in sync, and else from one whose superblock was made in memory.
ghost use Rattle.std.specs.Prelude.{◌≡◌, ◌↔◌, ◌<◌, length, true};
ghost use Rattle.md_inflight.specs.Requests.Pending.{PendingView};
ghost use Rattle.md_kept_members.specs.View.{MemberView};
ghost use Rattle.md_state.specs.Members.{IsMember};
ghost use Rattle.md_state.specs.Requests.{IsPending};
ghost use Rattle.md_state.specs.Steps.CopyData.{Lists};
ghost use Rattle.md_array.specs.Consistency.{IsConsistent};
ghost use Rattle.md_read_commands.specs.Others.{AsksInSync, AsksMember, AsksOthers, AsksOthersThan};

use crate::stand_in::read_stand_ins;
use crate::way::Unread;
use md_array::Mirror;
use md_device::Device;
use md_refusals::CommandFault;
use md_resync::ResyncFault;

/// Reads a sector that was not given from another member in sync, if one was not asked for it: that is so where a resync would
/// copy it from a member that could not be read there. Where none in sync gives it, it is read from one whose superblock was made in
/// memory. Says whether one gave it. If none did any bytes may stand in the block.
pub(crate) fn read_other<D: Device + Drop>(
    mirror: &mut Mirror<D>,
    unread: &Unread,
    block: &mut [u8],
) -> bool
    requires one { length block.old ≡ 512 }
    requires inside { unread.now.sector < mirror.old.array.chunks.size }
    requires sound { IsConsistent mirror.old }
    ensures gives { AsksOthers unread.now.fault unread.now.sector block.new mirror.old mirror.new result }
    ensures sound { IsConsistent mirror.new }
    ensures pending { (p : PendingView) → IsPending mirror.old.array p → IsPending mirror.new.array p }
{
    if read_in_sync(mirror, unread, block) {
        return true;
    }
    read_stand_ins(mirror, unread.sector, block)
}

// Reads it from another member in sync, if one was not asked for it.
fn read_in_sync<D: Device + Drop>(mirror: &mut Mirror<D>, unread: &Unread, block: &mut [u8]) -> bool
    requires one { length block.old ≡ 512 }
    requires inside { unread.now.sector < mirror.old.array.chunks.size }
    requires sound { IsConsistent mirror.old }
    ensures gives { AsksInSync unread.now.fault unread.now.sector block.new mirror.old mirror.new result }
    ensures sound { IsConsistent mirror.new }
    ensures pending { (p : PendingView) → IsPending mirror.old.array p → IsPending mirror.new.array p }
{
    match unread.fault {
        CommandFault::Resync(ResyncFault::ReadFault(source, _)) => {
            read_other_than(mirror, source, unread.sector, block)
        }
        _ => false,
    }
}

// Reads a sector from the first member in sync that gives it, but for this one.
fn read_other_than<D: Device + Drop>(
    mirror: &mut Mirror<D>,
    source: usize,
    sector: u64,
    block: &mut [u8],
) -> bool
    requires one { length block.old ≡ 512 }
    requires inside { sector < mirror.old.array.chunks.size }
    requires sound { IsConsistent mirror.old }
    ensures gives { AsksOthersThan source sector block.new mirror.old mirror.new result }
    ensures sound { IsConsistent mirror.new }
    ensures pending { (p : PendingView) → IsPending mirror.old.array p → IsPending mirror.new.array p }
{
    for k in 0..mirror.members() {
        if read_from(mirror, source, k, sector, block) {
            return true;
        }
    }
    false
}

// Reads a sector from member k, if that is in sync, does not list it, and is another than this one.
fn read_from<D: Device + Drop>(
    mirror: &mut Mirror<D>,
    source: usize,
    k: usize,
    sector: u64,
    block: &mut [u8],
) -> bool
    requires within { k < length mirror.old.array.members }
    requires one { length block.old ≡ 512 }
    requires inside { sector < mirror.old.array.chunks.size }
    requires sound { IsConsistent mirror.old }
    ensures gives { AsksMember source k sector block.new mirror.old mirror.new result }
    ensures sound { IsConsistent mirror.new }
    ensures pending { (p : PendingView) → IsPending mirror.old.array p → IsPending mirror.new.array p }
{
    if k == source {
        return false;
    }
    if !mirror.state(k).is_in_sync() {
        return false;
    }
    if lists(mirror, k, sector) {
        return false;
    }
    mirror.read_data(k, sector, block).is_ok()
}

/// Whether member k lists this sector of the array.
pub(crate) fn lists<D: Device + Drop>(mirror: &Mirror<D>, k: usize, sector: u64) -> bool
    requires within { k < length mirror.now.array.members }
    requires inside { sector < mirror.now.array.chunks.size }
    requires sound { IsConsistent mirror.now }
    ensures { (m : MemberView) → IsMember mirror.now.array k m → (result ≡ true) ↔ Lists m sector }
{
    let place = mirror.own(k).data_offset + sector;
    mirror.bad(k).meets(place, 1)
}
