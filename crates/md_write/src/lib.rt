//! Writing to an array, by the steps of a request alone.
//!
//! Start with `write`, the whole call. What a crash leaves within it is a law, `laws::within_write`.
//!
//! ```
//! write(&mut mirror, 8, &[0xa5; 512])?;
//! ```
#![tactic(auto)]

mod chunks;
mod data;
pub mod laws;
mod marks;
mod whole_write;

pub use whole_write::write;
