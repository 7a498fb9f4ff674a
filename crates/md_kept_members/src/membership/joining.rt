// What the array's superblock becomes as a device comes in.
ghost use Rattle.std.specs.Prelude.{◌≡◌, ◌^◌, ◌-◌, ◌≢◌, ◌≤◌, IfOk};
ghost use Rattle.md_kept_members.specs.Membership.Joining.{entries_with, joined_roles, joined_shared, role_after};

use crate::member::Member;
use crate::membership::numbers::role_at_rise;
use md_super::{MAX_ROLES, Roles, Superblock};
use std::alloc::{AllocError, Global};

/// The array's fields as they are once the device with this number has come in with this role: the event count
/// has risen.
pub fn joined_superblock(
    alloc: Global,
    shared: &Superblock,
    members: &[Member],
    number: u32,
    role: u16,
) -> Result<Superblock, AllocError>
    requires { shared.now.events ≢ 2 ^ 64 - 1 }
    ensures { IfOk result (λ v. v ≡ joined_shared shared.now members.now number role) }
{
    let roles = roles_with(alloc, shared, members, number, role)?;
    let mut next = shared.try_clone(alloc)?;
    next.events += 1;
    next.roles = roles;
    Ok(next)
}

fn roles_with(
    alloc: Global,
    shared: &Superblock,
    members: &[Member],
    number: u32,
    role: u16,
) -> Result<Roles, AllocError>
    ensures { IfOk result (λ roles. roles ≡ joined_roles shared.now members.now number role) }
{
    let mut roles = Vec::new(alloc);
    for d in 0..entries_with(shared, number) {
        roles.push(role_after(shared, members, number, role, d))?;
    }
    Ok(Roles::from_vec(roles))
}

fn entries_with(shared: &Superblock, number: u32) -> u32
    ensures value { result ≡ entries_with shared.now number }
    ensures few { result ≤ 1920 }
{
    let entries = shared.roles.max_dev();
    if number < MAX_ROLES {
        entries.max(number + 1)
    } else {
        entries
    }
}

fn role_after(shared: &Superblock, members: &[Member], number: u32, role: u16, d: u32) -> u16
    ensures { result ≡ role_after shared.now members.now number role d }
{
    if d == number {
        return role;
    }
    role_at_rise(shared, members, d)
}
