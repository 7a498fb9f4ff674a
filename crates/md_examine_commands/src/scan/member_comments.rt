// What the superblocks of an array tell of its members, in comments.
ghost use Rattle.std.specs.Prelude.{◌≡◌, ◌<◌, ◌++◌, codes, decimal, length, position};
ghost use Rattle.std.specs.List.{flat_map, list_any, range_with_len};
ghost use Rattle.md_streams.specs.Sink.{PutsOrFails};
ghost use Rattle.md_examine_commands.specs.ScanText.{behind_comment, comments, copies_comment, fills_role, is_in_role, is_other, is_twin, member_comment, member_comment_in, missing_comment, other_comment, place_comment, renumbered_comment, role_comments, role_member_comment, slot_comment, standing_comment, twin_at, twin_comment, twins};

use crate::scan::seen::{Seen, is_same_array, is_twin};
use md_assembly::{MemberState, state_of};
use md_streams::{Sink, SinkFault, number_after, put_name};
use md_super::Superblock;

/// For each role its members, or that it is missing; then spares and faulty members; then devices that are there twice.
/// `v` is the superblock that decides.
pub(crate) fn put_comments<S: Sink>(
    out: &mut S,
    v: &Superblock,
    all: &[Seen<'_>],
) -> Result<(), SinkFault>
    ensures { PutsOrFails S.contents S.failed out.old out.new (comments v.now all.now) result }
{
    put_roles(out, v, all)?;
    put_others(out, v, all)?;
    put_twins(out, v, all)?;
    Ok(())
}

fn put_roles<S: Sink>(out: &mut S, v: &Superblock, all: &[Seen<'_>]) -> Result<(), SinkFault>
    ensures { PutsOrFails S.contents S.failed out.old out.new
        (flat_map (role_comments v.now all.now) (range_with_len 0 v.now.raid_disks)) result }
{
    for role in 0..v.raid_disks {
        put_role(out, v, all, role)?;
    }
    Ok(())
}

#[tactic(auto, unfolding(crate::specs::ScanText::role_comments), using(md_streams::proofs::Puts::puts_then))]
fn put_role<S: Sink>(
    out: &mut S,
    v: &Superblock,
    all: &[Seen<'_>],
    role: u32,
) -> Result<(), SinkFault>
    ensures { PutsOrFails S.contents S.failed out.old out.new (role_comments v.now all.now role) result }
{
    put_role_members(out, v, all, role)?;
    put_if_missing(out, v, all, role)?;
    Ok(())
}

fn put_role_members<S: Sink>(
    out: &mut S,
    v: &Superblock,
    all: &[Seen<'_>],
    role: u32,
) -> Result<(), SinkFault>
    ensures { PutsOrFails S.contents S.failed out.old out.new
        (flat_map (role_member_comment v.now role) all.now) result }
{
    for seen in all {
        put_role_member(out, v, seen, role)?;
    }
    Ok(())
}

fn put_role_member<S: Sink>(
    out: &mut S,
    v: &Superblock,
    seen: &Seen<'_>,
    role: u32,
) -> Result<(), SinkFault>
    ensures { PutsOrFails S.contents S.failed out.old out.new
        (role_member_comment v.now role seen.now) result }
{
    if fills_role(v, role, seen) {
        put_member(out, v, seen)
    } else {
        out.put(b"")
    }
}

/// Whether it is of the array, and has this role there.
pub(crate) fn fills_role(v: &Superblock, role: u32, seen: &Seen<'_>) -> bool
    ensures { result ≡ fills_role v.now role seen.now }
{
    is_same_array(v, seen) && is_in_role(state_of(v, &seen.superblock), role)
}

fn is_in_role(state: MemberState, wanted: u32) -> bool
    ensures { result ≡ is_in_role state wanted }
{
    match state {
        MemberState::InSync(role) => u32::from(role) == wanted,
        MemberState::Recovering(role) => u32::from(role) == wanted,
        MemberState::Stale(role) => u32::from(role) == wanted,
        MemberState::Spare => false,
        MemberState::Faulty => false,
    }
}

/// Whether one of the images has the role.
pub(crate) fn is_taken(v: &Superblock, all: &[Seen<'_>], role: u32) -> bool
    ensures { result ≡ list_any (fills_role v.now role) all.now }
{
    all.iter().any(|seen| fills_role(v, role, seen))
}

fn put_if_missing<S: Sink>(
    out: &mut S,
    v: &Superblock,
    all: &[Seen<'_>],
    role: u32,
) -> Result<(), SinkFault>
    ensures { PutsOrFails S.contents S.failed out.old out.new (missing_comment v.now all.now role) result }
{
    if is_taken(v, all, role) {
        out.put(b"")
    } else {
        put_missing(out, role)
    }
}

#[tactic(auto, using(md_streams::proofs::Puts::puts_then))]
fn put_missing<S: Sink>(out: &mut S, role: u32) -> Result<(), SinkFault>
    ensures { PutsOrFails S.contents S.failed out.old out.new
        (codes "# device " ++ decimal role ++ codes ": missing\n") result }
{
    number_after(out, b"# device ", role)?;
    out.put(b": missing\n")?;
    Ok(())
}

fn put_others<S: Sink>(out: &mut S, v: &Superblock, all: &[Seen<'_>]) -> Result<(), SinkFault>
    ensures { PutsOrFails S.contents S.failed out.old out.new
        (flat_map (other_comment v.now) all.now) result }
{
    for seen in all {
        put_other(out, v, seen)?;
    }
    Ok(())
}

// A spare or a faulty member.
fn put_other<S: Sink>(out: &mut S, v: &Superblock, seen: &Seen<'_>) -> Result<(), SinkFault>
    ensures { PutsOrFails S.contents S.failed out.old out.new (other_comment v.now seen.now) result }
{
    if is_other(v, seen) {
        put_member(out, v, seen)
    } else {
        out.put(b"")
    }
}

fn is_other(v: &Superblock, seen: &Seen<'_>) -> bool
    ensures { result ≡ is_other v.now seen.now }
{
    is_same_array(v, seen) && state_of(v, &seen.superblock).role().is_none()
}

fn put_member<S: Sink>(out: &mut S, v: &Superblock, seen: &Seen<'_>) -> Result<(), SinkFault>
    ensures { PutsOrFails S.contents S.failed out.old out.new (member_comment v.now seen.now) result }
{
    put_member_in(out, v.events, state_of(v, &seen.superblock), seen)
}

fn put_member_in<S: Sink>(
    out: &mut S,
    most: u64,
    state: MemberState,
    seen: &Seen<'_>,
) -> Result<(), SinkFault>
    ensures { PutsOrFails S.contents S.failed out.old out.new (member_comment_in most state seen.now) result }
{
    put_slot(out, state)?;
    put_name(out, seen.name)?;
    put_standing(out, state)?;
    number_after(out, b", events ", seen.superblock.events)?;
    put_behind(out, most, seen.superblock.events)?;
    out.put(b"\n")?;
    Ok(())
}

// The role, or that it has none.
fn put_slot<S: Sink>(out: &mut S, state: MemberState) -> Result<(), SinkFault>
    ensures { PutsOrFails S.contents S.failed out.old out.new (slot_comment state) result }
{
    match state {
        MemberState::InSync(role) => put_place(out, role),
        MemberState::Recovering(role) => put_place(out, role),
        MemberState::Stale(role) => put_place(out, role),
        MemberState::Spare => out.put(b"# spare: "),
        MemberState::Faulty => out.put(b"# faulty: "),
    }
}

#[tactic(auto, using(md_streams::proofs::Puts::puts_then))]
fn put_place<S: Sink>(out: &mut S, role: u16) -> Result<(), SinkFault>
    ensures { PutsOrFails S.contents S.failed out.old out.new (place_comment role) result }
{
    number_after(out, b"# device ", role)?;
    out.put(b": ")?;
    Ok(())
}

fn put_standing<S: Sink>(out: &mut S, state: MemberState) -> Result<(), SinkFault>
    ensures { PutsOrFails S.contents S.failed out.old out.new (standing_comment state) result }
{
    out.put(standing(state).as_bytes())
}

fn standing(state: MemberState) -> &'static str
    ensures { result.now ≡ standing_comment state }
{
    match state {
        MemberState::InSync(_) => ", in sync",
        MemberState::Recovering(_) => ", recovering",
        MemberState::Stale(_) => ", stale",
        MemberState::Spare => "",
        MemberState::Faulty => "",
    }
}

fn put_behind<S: Sink>(out: &mut S, most: u64, own: u64) -> Result<(), SinkFault>
    ensures { PutsOrFails S.contents S.failed out.old out.new (behind_comment most own) result }
{
    if own < most {
        put_count_behind(out, most - own)
    } else {
        out.put(b"")
    }
}

#[tactic(auto, using(md_streams::proofs::Puts::puts_then))]
fn put_count_behind<S: Sink>(out: &mut S, count: u64) -> Result<(), SinkFault>
    ensures { PutsOrFails S.contents S.failed out.old out.new
        (codes ", " ++ decimal count ++ codes " behind") result }
{
    number_after(out, b", ", count)?;
    out.put(b" behind")?;
    Ok(())
}

// Devices that are there twice: each image after the first one is told of beside that.
fn put_twins<S: Sink>(out: &mut S, v: &Superblock, all: &[Seen<'_>]) -> Result<(), SinkFault>
    ensures { PutsOrFails S.contents S.failed out.old out.new (twins v.now all.now) result }
{
    for place in 0..all.len() {
        put_twin_at(out, v, all, place)?;
    }
    Ok(())
}

fn put_twin_at<S: Sink>(
    out: &mut S,
    v: &Superblock,
    all: &[Seen<'_>],
    place: usize,
) -> Result<(), SinkFault>
    requires { place < length all.now }
    ensures { PutsOrFails S.contents S.failed out.old out.new (twin_at v.now all.now place) result }
{
    let seen = &all[place];
    if !is_same_array(v, seen) {
        return out.put(b"");
    }
    match first_twin(&seen.superblock, &all[..place]) {
        Some(first) => put_copies(out, v, &all[first], seen),
        None => out.put(b""),
    }
}

fn first_twin(v: &Superblock, all: &[Seen<'_>]) -> Option<usize>
    ensures { result ≡ position (is_twin v.now) all.now }
{
    all.iter().position(|seen| is_twin(v, seen))
}

fn put_copies<S: Sink>(
    out: &mut S,
    v: &Superblock,
    first: &Seen<'_>,
    seen: &Seen<'_>,
) -> Result<(), SinkFault>
    ensures { PutsOrFails S.contents S.failed out.old out.new
        (copies_comment v.now first.now seen.now) result }
{
    if first.superblock.dev_number == seen.superblock.dev_number {
        put_twin(out, v, first, seen)
    } else {
        put_renumbered(out, first, seen)
    }
}

// The role by one number may be no role by the other, so that none is named.
#[tactic(auto, unfolding(crate::specs::ScanText::renumbered_comment), using(md_streams::proofs::Puts::puts_then))]
fn put_renumbered<S: Sink>(out: &mut S, first: &Seen<'_>, seen: &Seen<'_>) -> Result<(), SinkFault>
    ensures { PutsOrFails S.contents S.failed out.old out.new (renumbered_comment first.now seen.now) result }
{
    out.put(b"# ")?;
    put_name(out, first.name)?;
    out.put(b" and ")?;
    put_name(out, seen.name)?;
    number_after(
        out,
        b" have one device UUID, under the numbers ",
        first.superblock.dev_number,
    )?;
    number_after(out, b" and ", seen.superblock.dev_number)?;
    out.put(b": clones?\n")?;
    Ok(())
}

#[tactic(auto, unfolding(crate::specs::ScanText::twin_comment), using(md_streams::proofs::Puts::puts_then))]
fn put_twin<S: Sink>(
    out: &mut S,
    v: &Superblock,
    first: &Seen<'_>,
    seen: &Seen<'_>,
) -> Result<(), SinkFault>
    ensures { PutsOrFails S.contents S.failed out.old out.new (twin_comment v.now first.now seen.now) result }
{
    put_slot(out, state_of(v, &seen.superblock))?;
    put_name(out, first.name)?;
    out.put(b" and ")?;
    put_name(out, seen.name)?;
    out.put(b" both, with one device UUID: clones?\n")?;
    Ok(())
}
