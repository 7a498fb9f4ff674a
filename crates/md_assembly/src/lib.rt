//! Which array the members make that were read from their devices, and in which state each is.
//!
//! Start with `assemble`. `state_of` has the rule by which a member gets its state: the freshest superblock
//! decides.
//!
//! ```
//! let assembly = assemble(alloc, &infos)?;
//! let freshest = &infos[assembly.freshest];
//! let state = state_of(&freshest.superblock, &infos[0].superblock);
//! let reads = state.is_in_sync();
//! ```
#![tactic(auto)]

mod assembling;
mod checks;
mod fault;
mod freshest;
mod roles;
mod state;

pub use assembling::{Assembly, assemble};
pub use fault::AssembleFault;
pub use state::{MemberState, state_of};
