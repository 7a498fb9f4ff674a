// Which sectors are listed so that each log has room for them.
ghost use Rattle.std.specs.Prelude.{◌≡◌, ◌↔◌, ◌<◌, ◌^◌, ℕ, IfOk, false, length, true};
ghost use Rattle.md_array.specs.Consistency.{IsConsistent};
ghost use Rattle.md_copy.specs.Salvaging.Fitting.{HasOwnRoom, HasRoomIfInSync, HaveRoomFor, IsFitting, IsJustRoom, LacksRoomForMore, LacksRoomWith};
ghost use Rattle.md_copy.specs.Salvaging.Widened.{TakesFewest};
ghost use Rattle.md_kept_members.specs.SectorLists.{in_chunks_but, in_runs};
ghost use Rattle.md_state.specs.Steps.Enrol.{HasFullLog};

use crate::salvaging::room::widening::widen_lost;
use md_array::Mirror;
use md_badblocks::BadSet;
use md_bitmap::Marks;
use md_device::Device;
use md_kept_members::{list_but_for, list_with_sectors, log_room};
use std::alloc::{AllocError, Global};

// An entry of a log names 512 sectors. So it saves none to unite two runs with more than these between them.
const WIDEST_GAP: u64 = 510;

// No list has a sector from here on.
const ALL: u64 = 1 << 54;

/// The sectors to list where these are lost, of chunks that the target lacks: the lost ones, and where a log has no room
/// for so many runs, those between neighbouring ones too, wherever that saves an entry. The narrowest gaps are closed
/// first, and of the widest that are, from the left, no more than it takes until each log has room: that of the target,
/// which comes into sync with all else of these chunks, and those of all members in sync. Where no width up to the widest
/// is enough, the answer is of the widest all the same: then it takes the fewest entries that there can be, each from a
/// lost sector to the last one that it can name too. Where nothing is lost, none is listed. Nothing is changed.
pub fn sectors_to_list<D: Device + Drop>(
    alloc: Global,
    mirror: &Mirror<D>,
    target: usize,
    missing: &Marks,
    lost: &BadSet,
) -> Result<BadSet, AllocError>
    requires within { target < length mirror.now.array.members }
    requires missing { missing.now.chunks ≡ mirror.now.array.marks.chunks }
    requires sound { IsConsistent mirror.now }
    ensures { IfOk result (IsFitting target missing.now lost.now mirror.now.array) }
{
    let mut gap = 0;
    while gap <= WIDEST_GAP {
        let listed = widen_lost(alloc, mirror.chunks(), missing, lost, gap, ALL)?;
        if have_room(alloc, mirror, target, missing, &listed)? {
            return list_fewer(alloc, mirror, target, missing, lost, gap, listed);
        }
        gap += 1;
    }
    widen_lost(alloc, mirror.chunks(), missing, lost, WIDEST_GAP, ALL)
}

// Of the gaps of this width, with which each log has room, only so many are closed from the left as it takes.
fn list_fewer<D: Device + Drop>(
    alloc: Global,
    mirror: &Mirror<D>,
    target: usize,
    missing: &Marks,
    lost: &BadSet,
    gap: u64,
    all: BadSet,
) -> Result<BadSet, AllocError>
    requires within { target < length mirror.now.array.members }
    requires missing { missing.now.chunks ≡ mirror.now.array.marks.chunks }
    requires sound { IsConsistent mirror.now }
    requires narrower { 0 < gap → LacksRoomWith gap 0 target missing.now lost.now mirror.now.array }
    requires all { TakesFewest gap (2 ^ 54) mirror.now.array.chunks missing.now lost.now all }
    requires room { HaveRoomFor target missing.now mirror.now.array all }
    ensures { IfOk result (λ listed. (to : ℕ) × TakesFewest gap to mirror.now.array.chunks missing.now lost.now listed
        × IsJustRoom gap to target missing.now lost.now mirror.now.array listed) }
{
    if gap == 0 {
        return Ok(all);
    }
    let mut listed = all;
    // With those up to the first one some log has no room, with those up to the second one each has.
    let mut low = 0;
    let mut to = ALL;
    while to - low > 1 {
        let middle = low + (to - low) / 2;
        let fewer = widen_lost(alloc, mirror.chunks(), missing, lost, gap, middle)?;
        if have_room(alloc, mirror, target, missing, &fewer)? {
            listed = fewer;
            to = middle;
        } else {
            low = middle;
        }
    }
    Ok(listed)
}

// Whether each log that is to list these sectors has room.
fn have_room<D: Device + Drop>(
    alloc: Global,
    mirror: &Mirror<D>,
    target: usize,
    missing: &Marks,
    listed: &BadSet,
) -> Result<bool, AllocError>
    requires within { target < length mirror.now.array.members }
    requires missing { missing.now.chunks ≡ mirror.now.array.marks.chunks }
    requires sound { IsConsistent mirror.now }
    ensures { IfOk result (λ fits. (fits ≡ true) ↔ HaveRoomFor target missing.now mirror.now.array listed.now) }
{
    if !has_own_room(alloc, mirror, target, missing, listed)? {
        return Ok(false);
    }
    all_have_room(alloc, mirror, listed)
}

/// Whether the target's log has room.
pub(crate) fn has_own_room<D: Device + Drop>(
    alloc: Global,
    mirror: &Mirror<D>,
    target: usize,
    missing: &Marks,
    listed: &BadSet,
) -> Result<bool, AllocError>
    requires within { target < length mirror.now.array.members }
    requires missing { missing.now.chunks ≡ mirror.now.array.marks.chunks }
    requires sound { IsConsistent mirror.now }
    ensures room { IfOk result (λ fits. (fits ≡ true) ↔ HasOwnRoom target missing.now mirror.now.array listed.now) }
    ensures full { IfOk result (λ fits. fits ≡ false → HasFullLog target (in_chunks_but mirror.now.array.chunks missing.now listed.now) (in_runs listed.now) mirror.now.array) }
{
    let own = mirror.own(target);
    let list = list_but_for(
        alloc,
        mirror.bad(target),
        own.data_offset,
        mirror.chunks(),
        missing,
        listed,
    )?;
    Ok(list.entries_needed() <= log_room(own))
}

// Whether the logs of all members in sync have room, if there is something to list.
#[tactic(auto, using(crate::proofs::SalvageLemmas::Rooms::rooms_all, crate::proofs::SalvageLemmas::Rooms::rooms_more))]
fn all_have_room<D: Device + Drop>(
    alloc: Global,
    mirror: &Mirror<D>,
    listed: &BadSet,
) -> Result<bool, AllocError>
    ensures { IfOk result (λ fits. (fits ≡ true) ↔ ((k : ℕ) → HasRoomIfInSync mirror.now.array listed.now k)) }
{
    for k in 0..mirror.members() {
        if !has_room(alloc, mirror, k, listed)? {
            return Ok(false);
        }
    }
    Ok(true)
}

/// Whether the log of member k has room, if it is in sync and there is something to list. Else its list stays, and no room
/// is asked of its log: one that was read with a shift may be too small for the list that it has.
pub(crate) fn has_room<D: Device + Drop>(
    alloc: Global,
    mirror: &Mirror<D>,
    k: usize,
    listed: &BadSet,
) -> Result<bool, AllocError>
    requires { k < length mirror.now.array.members }
    ensures room { IfOk result (λ fits. (fits ≡ true) ↔ HasRoomIfInSync mirror.now.array listed.now k) }
    ensures full { IfOk result (λ fits. fits ≡ false → LacksRoomForMore k mirror.now.array listed.now) }
{
    if listed.is_empty() {
        return Ok(true);
    }
    if !mirror.state(k).is_in_sync() {
        return Ok(true);
    }
    let own = mirror.own(k);
    let list = list_with_sectors(alloc, mirror.bad(k), own.data_offset, listed)?;
    Ok(list.entries_needed() <= log_room(own))
}
