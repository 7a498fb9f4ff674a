//! The bad blocks of a member: a set of sectors, and the log that keeps it on the device.
//!
//! Start with `BadSet`, a set that is kept as runs: `BadSet::from_log` and `to_log` are the log, both ways.
//!
//! ```
//! let mut set = BadSet::from_log(alloc, &log, superblock.bblog_shift)?;
//! set.add(2000, 8)?;
//! let lists = set.meets(2004, 1);
//! set.to_log(&mut log)?;
//! ```
#![tactic(auto)]

mod bad_set;
mod editing;
mod log;
mod run;

pub use bad_set::BadSet;
pub use log::{LogFault, LogFull};
pub use run::Run;
