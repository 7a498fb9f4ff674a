//! Whether the members in sync agree: each is read by a worker of its own, and the chunks in which two differ are
//! found. Nothing is written.
//!
//! Start with `check_array`, which counts these chunks; `compare_members` says which they are, and which members
//! differ there. `window.rt` has what is read at once, and `compare.rt` what is compared.
//!
//! ```
//! let mismatched = check_array(rt, alloc, &mut mirror, &gate)?;
//! ```
#![tactic(auto)]

mod alike;
mod check;
mod compare;
mod fault;
mod lent;
mod listed;
mod order;
mod pairs;
mod reader;
mod readers;
mod turn;
mod window;
mod work;

pub use check::{check_array, compare_members};
pub use fault::CheckFault;
