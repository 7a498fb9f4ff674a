//! New members of an array: what they say, and how they are laid out on their devices.
//!
//! Start with `create`, which makes the members of a new array, and `lay_out`, which writes one to its
//! device. A spare for an array that is there is `new_spare`.
//!
//! ```
//! let members = create(alloc, &params, &[Some(4096), Some(4096)])?;
//! lay_out(&mut devices[0], &members[0])?;
//! lay_out(&mut devices[1], &members[1])?;
//! ```
#![tactic(auto)]

mod fault;
mod geometry;
mod laid_out;
mod naming;
mod new_members;
mod params;
mod places;
mod reading_back;
mod spare;

pub use fault::CreateFault;
pub use laid_out::lay_out;
pub use new_members::create;
pub use params::{CreateParams, NewMember};
pub use places::{BITMAP_RESERVED, DATA_SECTOR};
pub use reading_back::reads_back;
pub use spare::new_spare;
