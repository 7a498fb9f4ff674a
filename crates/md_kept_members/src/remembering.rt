// What is kept in memory of the members that were read.
ghost use Rattle.std.specs.Prelude.{◌≡◌, ◌&&◌, IfOk, length, nat_lt};
ghost use Rattle.md_assembly.specs.States.{is_recorded};
ghost use Rattle.md_kept_members.specs.Kept.{IsKept};
ghost use Rattle.md_kept_members.specs.Remembering.{AreKept, AreWhole, IsChunkingOf, IsWhole};

use crate::marking::needs_marks;
use crate::member::Member;
use crate::own_fields::stored_next;
use md_assembly::MemberState;
use md_bitmap::{Chunks, Marks};
use md_members::MemberInfo;
use std::alloc::{AllocError, Global};

/// The chunks of the array, by a member's superblock and bitmap.
pub fn chunking_of(info: &MemberInfo) -> Chunks
    requires { IsWhole info.now }
    ensures { IsChunkingOf info.now result }
{
    let chunksize = info.header.unwrap().chunksize;
    Chunks::new(info.superblock.size, chunksize)
}

/// What is kept of the members of an array at these events. Every offset counts yet: no superblock is older than 0 events.
pub fn members_of(
    alloc: Global,
    infos: Vec<MemberInfo>,
    states: &[MemberState],
    events: u64,
) -> Result<Vec<Member>, AllocError>
    requires whole { AreWhole infos.items }
    requires as_many { length states.now ≡ length infos.items }
    ensures { IfOk result (λ members. AreKept events 0 infos.items states.now members.items) }
{
    let mut members = Vec::new(alloc);
    for info in infos {
        let state = states[members.len()];
        members.push(member_of(alloc, info, state, events)?)?;
    }
    Ok(members)
}

// What is kept of a member. Where its bitmap counts as all marks, all of them are to be stored.
fn member_of(
    alloc: Global,
    info: MemberInfo,
    state: MemberState,
    events: u64,
) -> Result<Member, AllocError>
    requires { IsWhole info }
    ensures { IfOk result (λ m. IsKept events 0 info state m) }
{
    let MemberInfo {
        superblock,
        header,
        marks,
        bad,
        ..
    } = info;
    let due = is_due(state, superblock.events, events);
    let offset = superblock.recovery_offset;
    let mut member = Member {
        superblock: stored_next(superblock, &bad),
        header: header.unwrap(),
        stored: marks.unwrap(),
        bad,
        state,
        due,
        offset,
        stored_offset: offset,
    };
    if !needs_marks(&member) {
        return Ok(member);
    }
    member.stored = Marks::all(alloc, member.stored.chunks())?;
    Ok(member)
}

// Whether the superblock of a member in this state, of these events, has to be stored.
fn is_due(state: MemberState, own: u64, events: u64) -> bool
    ensures { result ≡ (is_recorded state && nat_lt own events) }
{
    state.is_recorded() && own < events
}
