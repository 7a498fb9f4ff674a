// The freshest superblock.
ghost use Rattle.std.specs.Prelude.{◌≡◌, ◌<◌, ◌==◌, ◌&&◌, length, not, position};
ghost use Rattle.std.specs.List.{list_any};
ghost use Rattle.md_super.specs.declared.superblock.Superblock.{Superblock};
ghost use Rattle.md_assembly.specs.Assembled.{IsFirstFreshest, DecidesRoles, disputes, is_disputed, superblocks, tells_otherwise};

use crate::state::state_of;
use md_members::MemberInfo;
use md_super::Superblock;

/// The index of the member whose superblock decides: with the greatest events, and of several the first that is not
/// disputed, or the first where each is.
pub(crate) fn freshest_of(members: &[MemberInfo]) -> usize
    requires some { 0 < length members.now }
    ensures within { result < length members.now }
    ensures freshest { (v : Superblock) × DecidesRoles (superblocks members.now) result v }
{
    let first = first_with_most(members);
    let events = members[first].superblock.events;
    match first_undisputed(members, events) {
        Some(k) => k,
        None => first,
    }
}

// The index of the member with the greatest events, the first listed on a tie.
fn first_with_most(members: &[MemberInfo]) -> usize
    requires some { 0 < length members.now }
    ensures within { result < length members.now }
    ensures freshest { (v : Superblock) × IsFirstFreshest (superblocks members.now) result v }
{
    let mut freshest = 0;
    for (i, member) in members.iter().enumerate() {
        if member.superblock.events > members[freshest].superblock.events {
            freshest = i;
        }
    }
    freshest
}

// The first member that has so many events and is not disputed.
fn first_undisputed(members: &[MemberInfo], events: u64) -> Option<usize>
    ensures { result ≡ position (λ m. m.superblock.events == events && not (is_disputed (superblocks members.now) m.superblock)) members.now }
{
    members.iter().position(|member| member.superblock.events == events
        && !is_disputed(members, &member.superblock))
}

// Whether a member that is in sync by this superblock, and has one as new, tells otherwise of some member.
fn is_disputed(members: &[MemberInfo], superblock: &Superblock) -> bool
    ensures { result ≡ is_disputed (superblocks members.now) superblock.now }
{
    is_disputed_by_some(members, superblock)
}

fn is_disputed_by_some(members: &[MemberInfo], superblock: &Superblock) -> bool
    ensures { result ≡ list_any (λ m. disputes (superblocks members.now) superblock.now m.superblock) members.now }
{
    members
        .iter()
        .any(|member| disputes(members, superblock, &member.superblock))
}

fn disputes(members: &[MemberInfo], superblock: &Superblock, other: &Superblock) -> bool
    ensures { result ≡ disputes (superblocks members.now) superblock.now other.now }
{
    other.events == superblock.events
        && state_of(superblock, other).is_in_sync()
        && tells_otherwise_of_some(members, superblock, other)
}

fn tells_otherwise_of_some(
    members: &[MemberInfo],
    superblock: &Superblock,
    other: &Superblock,
) -> bool
    ensures { result ≡ list_any (λ m. tells_otherwise superblock.now other.now m.superblock) members.now }
{
    members.iter().any(|member| tells_otherwise(superblock, other, &member.superblock))
}

fn tells_otherwise(superblock: &Superblock, other: &Superblock, member: &Superblock) -> bool
    ensures { result ≡ tells_otherwise superblock.now other.now member.now }
{
    state_of(superblock, member).is_active()
        && other.role_of(member.dev_number) != superblock.role_of(member.dev_number)
}
