// Whether another member is in sync.
ghost use Rattle.std.specs.Prelude.{MatchBool};
ghost use Rattle.md_kept_members.specs.Members.{HasOtherInSync, IsLastInSync};

use crate::member::Member;

/// Whether a member other than k is in sync.
pub fn has_other_in_sync(members: &[Member], k: usize) -> bool
    ensures { MatchBool result (HasOtherInSync members.now k) (IsLastInSync members.now k) }
{
    for (j, member) in members.iter().enumerate() {
        if j != k && member.state.is_in_sync() {
            return true;
        }
    }
    false
}
