// The state of a member.
ghost use Rattle.std.specs.Prelude.{◌≡◌};
ghost use Rattle.md_assembly.specs.States.{has_recovery_offset, is_active, is_in_sync, is_in_sync_as, is_recorded, is_recovering, is_spare, is_stale, is_up_to_date, role_in, role_of, state_of, takes_role};

use md_super::{FAULTY, FEATURE_RECOVERY_OFFSET, Superblock};

/// What a member is to its array. The number is its role by the freshest superblock.
#[derive(Clone, Copy, Debug, PartialEq, Eq)]
pub enum MemberState {
    /// It holds what the array holds.
    InSync(u16),
    /// It is up to date, and its data are not yet whole.
    Recovering(u16),
    /// It has a role, and its events are behind by more than one, or its own superblock gives it another role or none.
    Stale(u16),
    /// It has no role.
    Spare,
    /// It has failed.
    Faulty,
}

impl MemberState {
    /// The role, where the member has one.
    pub fn role(self) -> Option<u16>
        ensures { result ≡ role_of self }
    {
        match self {
            MemberState::InSync(role) => Some(role),
            MemberState::Recovering(role) => Some(role),
            MemberState::Stale(role) => Some(role),
            MemberState::Spare | MemberState::Faulty => None,
        }
    }

    /// Whether the member holds what the array holds.
    pub fn is_in_sync(self) -> bool
        ensures { result ≡ is_in_sync self }
    {
        matches!(self, MemberState::InSync(_))
    }

    /// Whether the member is in sync in this role.
    pub fn is_in_sync_as(self, wanted: u32) -> bool
        ensures { result ≡ is_in_sync_as wanted self }
    {
        match self {
            MemberState::InSync(role) => u32::from(role) == wanted,
            _ => false,
        }
    }

    /// Whether the member is in sync or recovering.
    pub fn is_active(self) -> bool
        ensures { result ≡ is_active self }
    {
        matches!(self, MemberState::InSync(_) | MemberState::Recovering(_))
    }

    /// Whether the member is in sync or recovering in this role: then no other may have it.
    pub fn takes_role(self, wanted: u32) -> bool
        ensures { result ≡ takes_role wanted self }
    {
        match self {
            MemberState::InSync(role) | MemberState::Recovering(role) => u32::from(role) == wanted,
            _ => false,
        }
    }

    /// Whether the member's superblock is kept up to date.
    pub fn is_recorded(self) -> bool
        ensures { result ≡ is_recorded self }
    {
        match self {
            MemberState::InSync(_) | MemberState::Recovering(_) | MemberState::Spare => true,
            MemberState::Stale(_) | MemberState::Faulty => false,
        }
    }

    /// Whether the member is being rebuilt.
    pub fn is_recovering(self) -> bool
        ensures { result ≡ is_recovering self }
    {
        matches!(self, MemberState::Recovering(_))
    }

    /// Whether the member is a spare.
    pub fn is_spare(self) -> bool
        ensures { result ≡ is_spare self }
    {
        matches!(self, MemberState::Spare)
    }

    /// Whether the member has a role, but is more than one event behind, or has another by its own superblock.
    pub fn is_stale(self) -> bool
        ensures { result ≡ is_stale self }
    {
        matches!(self, MemberState::Stale(_))
    }
}

/// The state of a member by the freshest superblock and its own. The freshest decides; but a member that is in sync or
/// recovering bears its role in its own superblock, which is the first to tell of it.
#[tactic(auto, unfolding(crate::specs::States::state_of))]
pub fn state_of(freshest: &Superblock, own: &Superblock) -> MemberState
    ensures { result ≡ state_of freshest.now own.now }
{
    let role = freshest.role_of(own.dev_number);
    if role == FAULTY {
        return MemberState::Faulty;
    }
    if u32::from(role) >= freshest.raid_disks {
        return MemberState::Spare;
    }
    if !is_up_to_date(freshest, own) || own.role_of(own.dev_number) != role {
        return MemberState::Stale(role);
    }
    if own.feature_map & FEATURE_RECOVERY_OFFSET != 0 {
        return MemberState::Recovering(role);
    }
    MemberState::InSync(role)
}

// Whether the events are the freshest's or one less.
fn is_up_to_date(freshest: &Superblock, own: &Superblock) -> bool
    ensures { result ≡ is_up_to_date freshest.now own.now }
{
    freshest.events.saturating_sub(1) <= own.events
}
