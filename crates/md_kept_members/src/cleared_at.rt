// The events at which marks were cleared, as the bitmaps of members in sync say.
ghost use Rattle.std.specs.Prelude.{◌≡◌, ◌↔◌, true, MatchOption, max};
ghost use Rattle.md_kept_members.specs.Remembering.{HasAccepted, IsLastClearedOr};

use crate::member::Member;
use md_members::accepted;

/// The greatest events at which an accepted bitmap of a member in sync says that marks were cleared;
/// those of the array, where there is none.
pub fn last_cleared(members: &[Member], events: u64) -> u64
    ensures { IsLastClearedOr events members.now result }
{
    let mut last = None;
    for member in members {
        if has_accepted(member) {
            last = Some(greater(last, member.header.events_cleared));
        }
    }
    last.unwrap_or(events)
}

fn greater(last: Option<u64>, events: u64) -> u64
    ensures { MatchOption last (result ≡ events) (λ l. result ≡ max l events) }
{
    match last {
        Some(last) => last.max(events),
        None => events,
    }
}

fn has_accepted(member: &Member) -> bool
    ensures { (result ≡ true) ↔ HasAccepted member.now }
{
    if !member.state.is_in_sync() {
        return false;
    }
    accepted(&member.superblock, &member.header)
}
