//! A mirror: the members of an array with their devices, and what is known of them.
//!
//! Start with `Mirror`: `Mirror::open` makes one of devices, and each step that it may do is a method in a
//! file of its own under `steps/`. Whole calls, as `write` and `resync`, are lists of such steps, in crates
//! above.
//!
//! ```
//! let mut pending = mirror.begin(8, &[0xa5; 512])?;
//! mirror.store_marks(0, 0)?;
//! mirror.record(0)?;
//! mirror.write_member(&mut pending, 0)?;
//! let finished = mirror.finish(pending);
//! ```
#![tactic(auto)]

mod fault;
mod mirror;
mod open;
mod steps;

pub use fault::OpenFault;
pub use md_faults::{
    AddFault, AdmitFault, BeginFault, CleanFault, ClearFault, CopyFault, EnrolFault, FailFault,
    FinishFault, NoteFault, ReAddFault, RemoveFault, StoreFault, TargetFault, WriteMemberFault,
};
pub use md_inflight::Pending;
pub use md_state::put_on;
pub use mirror::Mirror;
pub use open::read_members;
