//! Reading an array: one that is resynced, and one that is not, as a resync would leave it.
//!
//! Start with `read`. `read_unresynced` gives what `read` would give if the array were resynced before.
//!
//! ```
//! let mut sector = [0; 512];
//! read(&mut mirror, 8, &mut sector)?;
//! ```
#![tactic(auto)]

mod fault;
mod roles;
mod runs;
mod sources;
mod unresynced;
mod unresynced_fault;
mod whole_read;

pub use fault::UnreadFault;
pub use unresynced::read_unresynced;
pub use unresynced_fault::UnresyncedFault;
pub use whole_read::read;
