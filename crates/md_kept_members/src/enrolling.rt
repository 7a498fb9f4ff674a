// What is kept in memory of a member that was rebuilt, and comes into sync.
ghost use Rattle.std.specs.Prelude.{◌≡◌, IfOk};
ghost use Rattle.md_kept_members.specs.Enrolling.{ComesIntoSync, HasEqualMarks, in_sync_superblock};

use crate::member::Member;
use crate::own_fields::with_list;
use md_assembly::MemberState;
use md_badblocks::BadSet;
use md_bitmap::Marks;
use md_super::{FEATURE_RECOVERY_OFFSET, Superblock};
use std::alloc::{AllocError, Global};

/// What is kept of a member once it is in sync in this role, with this list, and with these marks stored.
pub fn in_sync(
    alloc: Global,
    member: &Member,
    role: u16,
    list: BadSet,
    marks: &Marks,
) -> Result<Member, AllocError>
    ensures { IfOk result (ComesIntoSync role list marks.now member.now) }
{
    let own = member.superblock.try_clone(alloc)?;
    Ok(Member {
        superblock: in_sync_superblock(own, &list),
        header: member.header,
        stored: same_marks(alloc, marks)?,
        bad: list,
        state: MemberState::InSync(role),
        due: false,
        offset: 0,
        stored_offset: 0,
    })
}

// Marks of the same chunks as these. No bit past the last is set.
fn same_marks(alloc: Global, marks: &Marks) -> Result<Marks, AllocError>
    ensures { IfOk result (HasEqualMarks marks.now) }
{
    let mut same = Marks::none(alloc, marks.chunks())?;
    same.unite(marks);
    Ok(same)
}

// The superblock of a member with this list that is no longer rebuilt.
fn in_sync_superblock(v: Superblock, list: &BadSet) -> Superblock
    ensures { result ≡ in_sync_superblock list.now v }
{
    let mut next = v;
    next.feature_map = with_list(next.feature_map & !FEATURE_RECOVERY_OFFSET, list);
    next.recovery_offset = 0;
    next.bblog_shift = 0;
    next
}
