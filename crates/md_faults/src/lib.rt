//! Why a step or a call of a mirror is refused, or fails: an enum for each, in the order in which its faults
//! are looked for.
//!
//! Start with the enum of the step in question, as `RemoveFault` of `Mirror::remove`. When each fault comes
//! is a definition of `md_state` or `md_array` (`RefusesRemove`).
//!
//! ```
//! let removed = mirror.remove(1);
//! if let Err(RemoveFault::StillActive) = removed {
//!     mirror.fail(1)?;
//! }
//! ```
#![tactic(auto)]

mod add_fault;
mod admit_fault;
mod copy_fault;
mod enrol_fault;
mod note_fault;
mod re_add_fault;
mod step_fault;

pub use add_fault::AddFault;
pub use admit_fault::AdmitFault;
pub use copy_fault::CopyFault;
pub use enrol_fault::{EnrolFault, TargetFault};
pub use note_fault::NoteFault;
pub use re_add_fault::ReAddFault;
pub use step_fault::{
    BeginFault, CleanFault, ClearFault, FailFault, FinishFault, RemoveFault, StoreFault,
    WriteMemberFault,
};
