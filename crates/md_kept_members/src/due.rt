// Superblocks that have to be stored.
ghost use Rattle.std.specs.Prelude.{◌≡◌, map};
ghost use Rattle.md_kept_members.specs.Members.{made_due, recorded_member};

use crate::member::Member;

/// The member's superblock is stored as it is kept.
pub fn note_recorded(member: &mut Member)
    ensures { member.new ≡ recorded_member member.old }
{
    member.due = false;
    member.stored_offset = member.superblock.recovery_offset;
}

/// The superblock of each member that is kept up to date has to be stored.
pub fn make_due(members: &mut [Member])
    ensures { members.new ≡ map made_due members.old }
{
    for member in members.iter_mut() {
        note_due(member);
    }
}

fn note_due(member: &mut Member)
    ensures { member.new ≡ made_due member.old }
{
    if member.state.is_recorded() {
        member.due = true;
    }
}
