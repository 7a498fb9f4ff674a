// Devices that the array has in its roles, and that are not among its members.
ghost use Rattle.std.specs.Prelude.{◌≡◌, ◌==◌, MatchOption, length};
ghost use Rattle.std.specs.List.{list_any};
ghost use Rattle.md_notices.specs.Unnamed.{IsFirstUnnamed, NoneUnnamed, is_joining, is_member};

use md_array::Mirror;
use md_device::Device;

// Whether a member has the device number.
fn is_member<D: Device + Drop>(mirror: &Mirror<D>, number: u32) -> bool
    ensures { result ≡ is_member mirror.now.array.members number }
{
    for k in 0..mirror.members() {
        if mirror.own(k).dev_number == number {
            return true;
        }
    }
    false
}

// Whether it is the number of the device that is to join.
fn is_joining(joining: Option<u32>, number: u32) -> bool
    ensures { result ≡ is_joining joining number }
{
    match joining {
        Some(joining) => joining == number,
        None => false,
    }
}

/// The first device number that the freshest superblock has in this role, and that neither a member has nor the device
/// that is to join, where that is of the array. Ask it before any step, since a step may change the roles. It takes no
/// memory.
pub fn unnamed_in<D: Device + Drop>(
    mirror: &Mirror<D>,
    joining: Option<u32>,
    role: u16,
) -> Option<u32>
    ensures { MatchOption result
        (NoneUnnamed mirror.now.array joining role (length mirror.now.array.shared.roles))
        (IsFirstUnnamed mirror.now.array joining role) }
{
    for number in 0..mirror.shared().roles.max_dev() {
        if mirror.shared().role_of(number) == role
            && !is_member(mirror, number)
            && !is_joining(joining, number)
        {
            return Some(number);
        }
    }
    None
}
