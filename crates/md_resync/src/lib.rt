//! A resync: the members in sync are made to agree in the chunks that are marked, and the marks are cleared,
//! by the steps alone.
//!
//! Start with `resync`, the whole call (`whole.rt`). `make_agree` is its copying, for a caller that stores
//! the marks itself. That its steps are runs of the mirror is `steps::every_step`.
//!
//! ```
//! resync(alloc, &mut mirror)?;
//! let resynced = mirror.resynced();
//! ```
#![tactic(auto)]

mod buffer;
mod chunks;
mod compare_member;
mod fault;
mod giving_up;
pub mod laws;
mod making_agree;
mod marks;
mod members;
mod source;
pub mod steps;
mod told_first;
mod whole;

pub use fault::ResyncFault;
pub use making_agree::make_agree;
pub use whole::resync;
