//! Tests of what is below or beside the mirror: superblocks, bitmaps, bad block logs, requests in flight, plans and
//! their checker, and what a collector takes.
//!
//! Start with the file of what is tested, for example `bad_block_logs.rt`.
//!
//! ```
//! let set = BadSet::from_log(rt.alloc(), &SHIFTED, 1)?;
//! holds(&rt, &"it lists a sector", set.meets(2000, 1));
//! ```
mod bad_block_logs;
mod bitmaps;
mod collector_reports;
mod plans;
mod requests;
mod superblocks;
