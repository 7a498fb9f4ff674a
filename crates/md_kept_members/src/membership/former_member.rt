// A device that left, beside the array that it comes back to.
ghost use Rattle.std.specs.Prelude.{◌≡◌, ◌↔◌, IsTrue};
ghost use Rattle.md_kept_members.specs.Membership.FormerMember.{IsOfArray, LeftItsRole, came_since, has_newcomer};

use crate::member::Member;
use crate::membership::numbers::has_number;
use md_bitmap::BitmapHeader;
use md_super::{FAULTY, FEATURE_RECOVERY_OFFSET, SPARE, Superblock};

/// Whether a device with this superblock and bitmap is of the array, whose chunks have so many sectors.
pub fn is_of_array(shared: &Superblock, width: u32, own: &Superblock, header: &BitmapHeader) -> bool
    ensures { IsTrue result ↔ IsOfArray shared.now width own.now header.now }
{
    own.set_uuid == shared.set_uuid
        && own.size == shared.size
        && own.raid_disks == shared.raid_disks
        && header.chunksize / 512 == width
}

/// Whether no member has the device's number, it was not being rebuilt, and its own superblock gives it a role.
pub fn left_its_role(shared: &Superblock, members: &[Member], own: &Superblock) -> bool
    ensures { IsTrue result ↔ LeftItsRole shared.now members.now own.now }
{
    !has_number(members, own.dev_number)
        && own.feature_map & FEATURE_RECOVERY_OFFSET == 0
        && u32::from(own.role_of(own.dev_number)) < shared.raid_disks
}

/// Whether by the array's superblock some device came in after `own`, the device's, was written.
pub fn has_newcomer(shared: &Superblock, own: &Superblock) -> bool
    ensures { result ≡ has_newcomer shared.now own.now }
{
    (0..shared.roles.max_dev()).any(|number| came_since(
        shared.role_of(number),
        own.role_of(number),
    ))
}

// Whether a device came in after a superblock was written: its entry now, and the one that it had there.
fn came_since(entry: u16, before: u16) -> bool
    ensures { result ≡ came_since entry before }
{
    if entry == FAULTY {
        return before == SPARE;
    }
    entry != SPARE && entry != before
}
