// The numbers of devices, and their entries in the roles as the event count rises.
ghost use Rattle.std.specs.Prelude.{◌≡◌, ◌↔◌, ◌<◌, IsTrue, false, length};
ghost use Rattle.md_model.specs.Membership.{IsLeastNumber};
ghost use Rattle.md_kept_members.specs.Membership.Numbers.{IsFree, IsNumber, has_absent_role, has_number, is_absent, role_at_rise, roles_at_rise, roles_without};

use crate::member::Member;
use md_super::{FAULTY, MAX_ROLES, Superblock};

/// Whether a member has the number.
pub(crate) fn has_number(members: &[Member], number: u32) -> bool
    ensures { result ≡ has_number members.now number }
{
    members
        .iter()
        .any(|member| member.superblock.dev_number == number)
}

/// Whether some number that no member has is given a role below raid_disks.
pub fn has_absent_role(shared: &Superblock, members: &[Member]) -> bool
    ensures { result ≡ has_absent_role shared.now members.now }
{
    (0..shared.roles.max_dev()).any(|number| is_absent(shared, members, number))
}

fn is_absent(shared: &Superblock, members: &[Member], number: u32) -> bool
    ensures { result ≡ is_absent shared.now members.now number }
{
    u32::from(shared.role_of(number)) < shared.raid_disks && !has_number(members, number)
}

/// The role of a number after a rise of the event count.
pub(crate) fn role_at_rise(shared: &Superblock, members: &[Member], number: u32) -> u16
    ensures { result ≡ role_at_rise shared.now members.now number }
{
    if is_absent(shared, members, number) {
        return FAULTY;
    }
    shared.role_of(number)
}

/// The roles of absent devices become those of failed ones.
pub fn drop_absent_roles(shared: &mut Superblock, members: &[Member])
    ensures { shared.new ≡ record shared.old { roles = roles_at_rise shared.old members.now } }
{
    for number in 0..shared.roles.max_dev() {
        if is_absent(shared, members, number) {
            drop_role(shared, number);
        }
    }
}

/// The entry of a number becomes that of a failed device, where it has one.
pub fn drop_role(shared: &mut Superblock, number: u32)
    ensures { shared.new ≡ record shared.old { roles = roles_without number shared.old.roles } }
{
    if number < shared.roles.max_dev() {
        shared.roles.set(number, FAULTY);
    }
}

/// The number that a new device gets: the least that a superblock has room for, that no member has and that is not
/// a failed device's; where there is none, the least that no member has.
pub fn new_number(shared: &Superblock, members: &[Member]) -> u32
    requires { length members.now < 64 }
    ensures { IsNumber shared.now members.now result }
{
    for number in 0..MAX_ROLES {
        if is_free(shared, members, number) {
            return number;
        }
    }
    least_unused(members)
}

// Whether no member has the number, and it is not that of a failed device after a rise of the count.
fn is_free(shared: &Superblock, members: &[Member], number: u32) -> bool
    requires { number < 1920 }
    ensures { IsTrue result ↔ IsFree shared.now members.now number }
{
    !has_number(members, number) && role_at_rise(shared, members, number) != FAULTY
}

// The least number that no member has. Of one number more than there are members, one is.
fn least_unused(members: &[Member]) -> u32
    requires { length members.now < 64 }
    ensures { IsLeastNumber (λ d. has_number members.now d ≡ false) result }
{
    let count = members.len() as u32;
    for number in 0..count {
        if !has_number(members, number) {
            return number;
        }
    }
    count
}
