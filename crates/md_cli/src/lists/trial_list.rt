// The list of a member as it would be with more sectors.
ghost use Rattle.std.specs.Prelude.{◌≡◌, ◌<◌, IfOk, false, length, true};
ghost use Rattle.md_kept_members.specs.View.{MemberView};
ghost use Rattle.md_state.specs.Members.{IsMember};
ghost use Rattle.md_cli.specs.Lacking.{FitsMore, OverfillsLog, usable_room};

use md_array::Mirror;
use md_badblocks::BadSet;
use md_device::Device;
use md_kept_members::{list_with_sectors, log_room};
use md_super::Superblock;
use std::alloc::{AllocError, Global};

/// Whether the log of member k has room for its list with these sectors of the array, and some to spare.
pub(crate) fn has_room_with<D: Device + Drop>(
    alloc: Global,
    mirror: &Mirror<D>,
    k: usize,
    sectors: &BadSet,
) -> Result<bool, AllocError>
    requires within { k < length mirror.now.array.members }
    ensures room { IfOk result (λ fits. fits ≡ true → (m : MemberView) → IsMember mirror.now.array k m
        → FitsMore m sectors.now) }
    ensures full { IfOk result (λ fits. fits ≡ false → (m : MemberView) → IsMember mirror.now.array k m
        → OverfillsLog m sectors.now) }
{
    let own = mirror.own(k);
    let list = list_with_sectors(alloc, mirror.bad(k), own.data_offset, sectors)?;
    Ok(list.entries_needed() <= usable_room(own))
}

/// How many entries of the log that a superblock names a list may take which grew by what an image lacks. An eighth of them is
/// kept free for bad sectors that are found later: with no room for such a one a rebuild is refused, and a kernel drops
/// the member.
pub(crate) fn usable_room(own: &Superblock) -> u64
    ensures { result ≡ usable_room own.now }
{
    let room = log_room(own);
    room - room / 8
}
