// Members that were used without those that are in sync now.
ghost use Rattle.std.specs.Prelude.{◌≡◌, ◌<◌, ◌==◌, ◌↔◌, IsTrue, MatchOption, length, take};
ghost use Rattle.std.specs.List.{list_all, list_any};
ghost use Rattle.md_kept_members.specs.View.{MemberView};
ghost use Rattle.md_state.specs.Members.{IsMember};
ghost use Rattle.md_notices.specs.Parting.{IsFirstInSync, NoneInSync, WasApart, has_role_below, is_apart, is_left_by, is_out, is_parted, was_without};

use md_array::Mirror;
use md_assembly::{MemberState, state_of};
use md_device::Device;
use md_super::{FAULTY, Superblock};

// The roles of devices of lower numbers by the superblock.
#[tactic(auto, using(std::proofs::lemmas::List::take_all))]
fn roles_below(v: &Superblock, number: u32) -> &[u16]
    ensures { result.now ≡ take number v.now.roles }
{
    let roles = v.roles.as_slice();
    let count = number as usize;
    if count < roles.len() {
        return &roles[..count];
    }
    roles
}

// Whether the superblock has a device of a lower number in the role.
fn has_role_below(v: &Superblock, number: u32, role: u16) -> bool
    ensures { result ≡ has_role_below v.now number role }
{
    roles_below(v, number).iter().any(|other| *other == role)
}

// Whether by the superblock the device with this number, which is in sync in this role, was not in use any more.
fn was_without(v: &Superblock, number: u32, role: u16) -> bool
    ensures { result ≡ was_without v.now number role }
{
    let other = v.role_of(number);
    if other == FAULTY {
        return true;
    }
    if u32::from(other) < v.raid_disks {
        // By it this number is another disk's.
        return other != role;
    }
    !has_role_below(v, number, role)
}

// Whether a member is not in sync, or by the superblock was not in use any more.
fn is_left_by(v: &Superblock, number: u32, state: MemberState) -> bool
    ensures { result ≡ is_left_by v.now number state }
{
    match state {
        MemberState::InSync(role) => was_without(v, number, role),
        _ => true,
    }
}

// Whether by the superblock no member in sync was in use any more.
fn left_all<D: Device + Drop>(mirror: &Mirror<D>, v: &Superblock) -> bool
    ensures { result ≡ list_all (λ m. is_left_by v.now m.superblock.dev_number m.state)
        mirror.now.array.members }
{
    for k in 0..mirror.members() {
        if !is_left_by(v, mirror.own(k).dev_number, mirror.state(k)) {
            return false;
        }
    }
    true
}

// Whether the superblock has its own device in a role, and by it no member in sync was in use any more.
fn is_apart<D: Device + Drop>(mirror: &Mirror<D>, v: &Superblock) -> bool
    ensures { result ≡ is_apart mirror.now.array.members v.now }
{
    if u32::from(v.role_of(v.dev_number)) >= v.raid_disks {
        return false;
    }
    left_all(mirror, v)
}

// Whether the array has a device in this state in no role any more, or in another than its own superblock does.
fn is_out(state: MemberState, own: &Superblock) -> bool
    ensures { result ≡ is_out state own.now }
{
    match state {
        MemberState::InSync(_) | MemberState::Recovering(_) => false,
        MemberState::Stale(role) => own.role_of(own.dev_number) != role,
        MemberState::Spare | MemberState::Faulty => true,
    }
}

/// Whether member k, without which the array goes on, was used without all members that are in sync: its own superblock
/// has it in a role and has them as failed, in another role, or in none, which no device of a lower number has either. Ask it before
/// any step, since a step may change its superblock. It takes no memory.
pub fn is_parted<D: Device + Drop>(mirror: &Mirror<D>, k: usize) -> bool
    requires { k < length mirror.now.array.members }
    ensures { (m : MemberView) → IsMember mirror.now.array k m
        → result ≡ is_parted mirror.now.array.members m }
{
    let own = mirror.own(k);
    if !is_out(mirror.state(k), own) {
        return false;
    }
    is_apart(mirror, own)
}

/// Whether a device with this superblock, which is to come back to the array, was used without all members that are in
/// sync, as `is_parted` says it of a member. It takes no memory.
pub fn was_apart<D: Device + Drop>(mirror: &Mirror<D>, own: &Superblock) -> bool
    ensures { IsTrue result ↔ WasApart mirror.now.array own.now }
{
    own.set_uuid == mirror.shared().set_uuid
        && is_out(state_of(mirror.shared(), own), own)
        && is_apart(mirror, own)
}

/// The first member that is in sync, where there is one. It takes no memory.
pub fn first_in_sync<D: Device + Drop>(mirror: &Mirror<D>) -> Option<usize>
    ensures { MatchOption result (NoneInSync mirror.now.array.members (length mirror.now.array.members))
        (IsFirstInSync mirror.now.array.members) }
{
    for k in 0..mirror.members() {
        if mirror.state(k).is_in_sync() {
            return Some(k);
        }
    }
    None
}
