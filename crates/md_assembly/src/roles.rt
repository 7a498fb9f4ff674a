// The checks of the members' states, and the list of them.
ghost use Rattle.std.specs.Prelude.{◌≡◌, ℕ, count_by, map, IfOk};
ghost use Rattle.std.specs.List.{list_any};
ghost use Rattle.md_assembly.specs.Assembled.{DecidesRoles, superblocks};
ghost use Rattle.md_assembly.specs.Faults.{IsChecked, NoneBeforePlace};
ghost use Rattle.md_assembly.specs.States.{is_in_sync, state_of, takes_role};

use crate::fault::AssembleFault;
use crate::state::{MemberState, state_of};
use md_members::MemberInfo;
use md_super::Superblock;
use std::alloc::{AllocError, Global};

/// The checks that are made of the states by the freshest superblock.
pub(crate) fn check_states(
    members: &[MemberInfo],
    freshest: &Superblock,
) -> Result<(), AssembleFault>
    requires freshest { (i : ℕ) × DecidesRoles (superblocks members.now) i freshest.now }
    requires before { NoneBeforePlace members.now 7 }
    ensures { IsChecked members.now 8 result }
{
    check_roles(members, freshest)?;
    check_in_sync(members, freshest)
}

fn check_roles(members: &[MemberInfo], freshest: &Superblock) -> Result<(), AssembleFault>
    requires freshest { (i : ℕ) × DecidesRoles (superblocks members.now) i freshest.now }
    requires before { NoneBeforePlace members.now 7 }
    ensures { IsChecked members.now 7 result }
{
    for role in 0..freshest.raid_disks as u16 {
        if count_of_role(members, freshest, role) > 1 {
            return Err(AssembleFault::DoubleRole(role));
        }
    }
    Ok(())
}

// How many members are in sync or recovering in a role.
fn count_of_role(members: &[MemberInfo], freshest: &Superblock, role: u16) -> usize
    ensures { result ≡ count_by (λ m. takes_role role (state_of freshest.now m.superblock)) members.now }
{
    members
        .iter()
        .filter(|member| state_of(freshest, &member.superblock).takes_role(u32::from(role)))
        .count()
}

fn check_in_sync(members: &[MemberInfo], freshest: &Superblock) -> Result<(), AssembleFault>
    requires freshest { (i : ℕ) × DecidesRoles (superblocks members.now) i freshest.now }
    requires before { NoneBeforePlace members.now 8 }
    ensures { IsChecked members.now 8 result }
{
    if has_in_sync(members, freshest) {
        Ok(())
    } else {
        Err(AssembleFault::NotEnough)
    }
}

fn has_in_sync(members: &[MemberInfo], freshest: &Superblock) -> bool
    ensures { result ≡ list_any (λ m. is_in_sync (state_of freshest.now m.superblock)) members.now }
{
    members.iter().any(|member| state_of(freshest, &member.superblock).is_in_sync())
}

/// The state of each member.
pub(crate) fn states_of(
    alloc: Global,
    members: &[MemberInfo],
    freshest: &Superblock,
) -> Result<Vec<MemberState>, AllocError>
    ensures { IfOk result (λ states. states.items ≡ map (λ m. state_of freshest.now m.superblock) members.now) }
{
    members
        .iter()
        .map(|member| state_of(freshest, &member.superblock))
        .collect(alloc)
}
