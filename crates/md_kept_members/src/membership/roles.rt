// The roles that members take.
ghost use Rattle.std.specs.Prelude.{◌≡◌, MatchOption};
ghost use Rattle.md_kept_members.specs.Membership.Roles.{AreAllTaken, IsLeastFree, is_taken};

use crate::member::Member;
use md_super::Superblock;

/// Whether a member in sync or recovering has the role.
pub fn is_taken(members: &[Member], role: u16) -> bool
    ensures { result ≡ is_taken members.now role }
{
    members
        .iter()
        .any(|member| member.state.takes_role(u32::from(role)))
}

/// The least role that no member in sync or recovering has.
pub fn least_free_role(shared: &Superblock, members: &[Member]) -> Option<u16>
    ensures { MatchOption result (AreAllTaken shared.now.raid_disks members.now) (IsLeastFree shared.now.raid_disks members.now) }
{
    let disks = shared.raid_disks as u16;
    for role in 0..disks {
        if !is_taken(members, role) {
            return Some(role);
        }
    }
    None
}
