// From which member a sector is copied.
ghost use Rattle.std.specs.Prelude.{◌≡◌, ◌↔◌, true, ◌+◌, ◌<◌, ◌≤◌, ℕ, IfSome, IfNone, MatchOption, length};
ghost use Rattle.md_kept_members.specs.View.{MemberView};
ghost use Rattle.md_assembly.specs.States.{is_in_sync_as};
ghost use Rattle.md_state.specs.Steps.CopyData.{IsSource, Lists};
ghost use Rattle.md_state.specs.Members.{IsMember};
ghost use Rattle.md_resync.specs.Sources.{IsUnlistedSource, NoneFree, lower_of};

use md_array::Mirror;
use md_assembly::MemberState;
use md_device::Device;

// Whether member k lists the sector as bad. No list has sectors from 2^54 on.
fn lists<D: Device + Drop>(mirror: &Mirror<D>, k: usize, sector: u64) -> bool
    requires { k < length mirror.now.array.members }
    ensures { (m : MemberView) → IsMember mirror.now.array k m → (result ≡ true) ↔ Lists m sector }
{
    let bad = mirror.bad(k);
    if bad.runs().is_empty() {
        return false;
    }
    let Some(at) = mirror.own(k).data_offset.checked_add(sector) else {
        return false;
    };
    bad.meets(at, 1)
}

// The role in which member k may give the sector: it is in sync, and does not list it.
fn role_to_read<D: Device + Drop>(mirror: &Mirror<D>, k: usize, sector: u64) -> Option<u16>
    requires { k < length mirror.now.array.members }
    ensures { (m : MemberView) → IsMember mirror.now.array k m → MatchOption result ((role : ℕ) → IsUnlistedSource role sector m → ⊥) (λ role. IsUnlistedSource role sector m) }
{
    let MemberState::InSync(role) = mirror.state(k) else {
        return None;
    };
    if lists(mirror, k, sector) {
        return None;
    }
    Some(role)
}

// The lower of two roles, with their members.
fn lower(best: Option<(u16, usize)>, role: Option<u16>, k: usize) -> Option<(u16, usize)>
    ensures { result ≡ lower_of best role k }
{
    let Some(role) = role else {
        return best;
    };
    match best {
        Some((least, _)) if least <= role => best,
        _ => Some((role, k)),
    }
}

/// The member in sync of the lowest role that does not list the sector. Takes no memory.
pub(crate) fn source_of<D: Device + Drop>(mirror: &Mirror<D>, sector: u64) -> Option<usize>
    ensures within { IfSome result (λ from. from < length mirror.now.array.members) }
    ensures source { MatchOption result (NoneFree sector mirror.now.array) (λ from. IsSource from sector mirror.now.array) }
{
    let mut best: Option<(u16, usize)> = None;
    for k in 0..mirror.members() {
        best = lower(best, role_to_read(mirror, k, sector), k);
    }
    match best {
        Some((_, from)) => Some(from),
        None => None,
    }
}

/// The end of the sectors from this one on, and below `end`, that have the same source. Takes no memory.
pub(crate) fn end_of_run<D: Device + Drop>(
    mirror: &Mirror<D>,
    from: usize,
    sector: u64,
    end: u64,
) -> u64
    requires some { sector < end }
    requires source { IsSource from sector mirror.now.array }
    ensures from { sector < result }
    ensures to { result ≤ end }
    ensures source { (s : ℕ) → sector ≤ s → s < result → IsSource from s mirror.now.array }
{
    for next in sector + 1..end {
        if source_of(mirror, next) != Some(from) {
            return next;
        }
    }
    end
}
