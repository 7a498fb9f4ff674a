// What array members make.
ghost use Rattle.std.specs.Prelude.{◌≡◌, IfOk, IfErr, OnOk};
ghost use Rattle.md_assembly.specs.Assembled.{IsAssembled};
ghost use Rattle.md_assembly.specs.Faults.{IsFirstAssembleFault, NoAssembleFault};

use crate::checks::check_members;
use crate::fault::AssembleFault;
use crate::freshest::freshest_of;
use crate::roles::{check_states, states_of};
use crate::state::MemberState;
use md_members::MemberInfo;
use std::alloc::Global;

/// What the members of an array are to it.
#[derive(Debug, Drop)]
pub struct Assembly {
    /// The index of the member whose superblock is the freshest: the greatest events, and of several the first listed
    /// to which no member in sync by it objects, whose superblock is as new and tells otherwise of some member's role.
    pub freshest: usize,
    /// The state of each member, in the order of the members.
    pub states: Vec<MemberState>,
}

/// The array that the members make, or the first fault in them, in the order of `AssembleFault`.
/// `NoMemory` comes last: only where no other fault stands.
pub fn assemble(alloc: Global, members: &[MemberInfo]) -> Result<Assembly, AssembleFault>
    ensures ok { IfOk result (λ a. IsAssembled members.now a) }
    ensures sound { OnOk result (NoAssembleFault members.now) }
    ensures refused { IfErr result (λ f. IsFirstAssembleFault members.now f) }
{
    check_members(members)?;
    let freshest = freshest_of(members);
    let superblock = &members[freshest].superblock;
    check_states(members, superblock)?;
    let states = states_of(alloc, members, superblock)?;
    Ok(Assembly { freshest, states })
}
