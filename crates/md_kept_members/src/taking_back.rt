// What is kept in memory of a device that left, and is taken back.
ghost use Rattle.std.specs.Prelude.{◌≡◌};
ghost use Rattle.md_kept_members.specs.Remembering.{IsWhole};
ghost use Rattle.md_kept_members.specs.TakingBack.{IsKeptTakenBack, recovering};

use crate::member::Member;
use crate::own_fields::stored_next;
use md_assembly::MemberState;
use md_members::MemberInfo;
use md_super::{FEATURE_RECOVERY_OFFSET, Superblock};

/// What is kept of a device that was read, and is taken back in the role that its own superblock gives it.
/// It is rebuilt up to `offset`. Its superblock is to have the offset 0: it comes before those of the others, and where these
/// are written to before they tell of it, a kernel takes such a device at its word.
pub fn taken_back(info: MemberInfo, offset: u64) -> Member
    requires { IsWhole info }
    ensures { IsKeptTakenBack offset info result }
{
    let MemberInfo {
        superblock,
        header,
        marks,
        bad,
        ..
    } = info;
    let role = superblock.role_of(superblock.dev_number);
    Member {
        superblock: recovering(stored_next(superblock, &bad), 0),
        header: header.unwrap(),
        stored: marks.unwrap(),
        bad,
        state: MemberState::Recovering(role),
        due: false,
        offset,
        stored_offset: 0,
    }
}

// The superblock of a member that is rebuilt, which is known to be done up to this sector of the array.
pub(crate) fn recovering(v: Superblock, offset: u64) -> Superblock
    ensures { result ≡ recovering offset v }
{
    let mut next = v;
    next.feature_map |= FEATURE_RECOVERY_OFFSET;
    next.recovery_offset = offset;
    next
}
