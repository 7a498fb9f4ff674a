//! Theorems about whole calls, beyond those of `md_laws`: what crashes within them leave, and what a rebuild makes.
//!
//! Start with `crashes::laws` and `rebuilds::laws`. There is no code but `fresh_agreement`, a resync of a new array:
//!
//! `crashes/`: theorems about crashes and resyncs, beyond those of `md_laws`.
//!
//! `rebuilds/`: theorems about rebuilds.
//!
//! ```
//! let mirror = fresh_agreement(alloc, devices).ok_or("it was refused")?;
//! ```
#![tactic(auto)]

pub mod crashes;
pub mod rebuilds;

pub use crashes::fresh_agreement;
