// What is noticed of all members and roles of an array, by their places.
ghost use Rattle.std.specs.Prelude.{◌≡◌, ◌<◌};
ghost use Rattle.md_notices.specs.Noticing.{WereMarkedAtOpening, AreUnnamed, WasMarkedAtOpening, IsUnnamedAt, all_dropped, all_parted, all_states, is_dropped_at, dropped_from, in_sync_count, is_place, is_parted_at, place_after, state_at, state_there};

use crate::dropping_out::dropped_out;
use crate::parting::is_parted;
use crate::unnamed::unnamed_in;
use md_array::Mirror;
use md_assembly::MemberState;
use md_device::Device;

/// An array has no more members.
pub const MAX_MEMBERS: usize = 64;

/// An array has no more roles.
pub const MAX_ROLES: usize = 32;

/// What a command was asked to do with a member: the place of one that left, which the others after it
/// follow, and of one that it made faulty.
#[derive(Clone, Copy)]
pub struct Asked {
    pub left: Option<usize>,
    pub failed: Option<usize>,
}

fn is_parted_at<D: Device + Drop>(mirror: &Mirror<D>, k: usize) -> bool
    ensures { result ≡ is_parted_at mirror.now.array.members k }
{
    if k >= mirror.members() {
        return false;
    }
    is_parted(mirror, k)
}

/// Of each place whether its member was used without those that are in sync. Ask it before any step. It takes no
/// memory, as nothing here does.
pub fn members_parted<D: Device + Drop>(mirror: &Mirror<D>) -> [bool; MAX_MEMBERS]
    ensures { result ≡ all_parted mirror.now.array.members }
{
    let mut parted = [false; MAX_MEMBERS];
    for k in 0..MAX_MEMBERS {
        parted[k] = is_parted_at(mirror, k);
    }
    parted
}

fn is_marked_at<D: Device + Drop>(mirror: &Mirror<D>, k: usize) -> bool
    ensures { WasMarkedAtOpening mirror.now.array.members k result }
{
    if k >= mirror.members() {
        return false;
    }
    mirror.stored_marks_at_opening(k)
}

/// Of each place whether marks were stored on its member as the array was opened. Ask it before any step.
pub fn members_marked<D: Device + Drop>(mirror: &Mirror<D>) -> [bool; MAX_MEMBERS]
    ensures { WereMarkedAtOpening mirror.now.array.members result }
{
    let mut marked = [false; MAX_MEMBERS];
    for k in 0..MAX_MEMBERS {
        marked[k] = is_marked_at(mirror, k);
    }
    marked
}

fn state_at<D: Device + Drop>(mirror: &Mirror<D>, k: usize) -> Option<MemberState>
    ensures { result ≡ state_at mirror.now.array.members k }
{
    if k >= mirror.members() {
        return None;
    }
    Some(mirror.state(k))
}

/// The state of the member in each place.
pub fn states_of<D: Device + Drop>(mirror: &Mirror<D>) -> [Option<MemberState>; MAX_MEMBERS]
    ensures { result ≡ all_states mirror.now.array.members }
{
    let mut states = [None; MAX_MEMBERS];
    for k in 0..MAX_MEMBERS {
        states[k] = state_at(mirror, k);
    }
    states
}

/// Whether this is the place.
pub fn is_place(place: Option<usize>, k: usize) -> bool
    ensures { result ≡ is_place place k }
{
    match place {
        Some(j) => j == k,
        None => false,
    }
}

// The place of a member after another one left.
pub(crate) fn place_after(left: Option<usize>, k: usize) -> Option<usize>
    ensures { result ≡ place_after left k }
{
    let Some(j) = left else {
        return Some(k);
    };
    if j == k {
        None
    } else if j < k {
        Some(k - 1)
    } else {
        Some(k)
    }
}

fn state_there<D: Device + Drop>(mirror: &Mirror<D>, place: Option<usize>) -> Option<MemberState>
    ensures { result ≡ state_there mirror.now.array.members place }
{
    match place {
        Some(k) => state_at(mirror, k),
        None => None,
    }
}

fn dropped_from(before: Option<MemberState>, after: Option<MemberState>) -> bool
    ensures { result ≡ dropped_from before after }
{
    let Some(before) = before else {
        return false;
    };
    match after {
        Some(after) => dropped_out(before, after),
        None => false,
    }
}

fn is_dropped_at<D: Device + Drop>(
    was: &[Option<MemberState>; MAX_MEMBERS],
    mirror: &Mirror<D>,
    asked: Asked,
    k: usize,
) -> bool
    requires { k < 64 }
    ensures { result ≡ is_dropped_at was.now mirror.now.array.members asked k }
{
    if is_place(asked.failed, k) {
        return false;
    }
    dropped_from(was[k], state_there(mirror, place_after(asked.left, k)))
}

/// Of each place before a command whether its member dropped out in it, and not because that was asked for. `was` has
/// the states before the command; the mirror is what it left.
pub fn members_dropped<D: Device + Drop>(
    was: &[Option<MemberState>; MAX_MEMBERS],
    mirror: &Mirror<D>,
    asked: Asked,
) -> [bool; MAX_MEMBERS]
    ensures { result ≡ all_dropped was.now mirror.now.array.members asked }
{
    let mut dropped = [false; MAX_MEMBERS];
    for k in 0..MAX_MEMBERS {
        dropped[k] = is_dropped_at(was, mirror, asked, k);
    }
    dropped
}

/// How many members are in sync.
pub fn in_sync_count<D: Device + Drop>(mirror: &Mirror<D>) -> usize
    ensures { result ≡ in_sync_count mirror.now.array.members }
{
    let mut count = 0;
    for k in 0..mirror.members() {
        if mirror.state(k).is_in_sync() {
            count += 1;
        }
    }
    count
}

fn unnamed_at<D: Device + Drop>(mirror: &Mirror<D>, joining: Option<u32>, role: u16) -> Option<u32>
    ensures { IsUnnamedAt mirror.now.array joining role result }
{
    if u32::from(role) >= mirror.shared().raid_disks {
        return None;
    }
    unnamed_in(mirror, joining, role)
}

/// Of each role the first device that the array has in it, and that is neither a member nor the device that is to join,
/// which has this number, where it is of the array.
pub fn roles_unnamed<D: Device + Drop>(
    mirror: &Mirror<D>,
    joining: Option<u32>,
) -> [Option<u32>; MAX_ROLES]
    ensures { AreUnnamed mirror.now.array joining result }
{
    let mut unnamed = [None; MAX_ROLES];
    for role in 0..MAX_ROLES {
        unnamed[role] = unnamed_at(mirror, joining, role as u16);
    }
    unnamed
}
