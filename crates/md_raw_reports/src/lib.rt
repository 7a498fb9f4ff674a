//! Reports on what stands on a device though it may be refused, as text: a superblock, a bitmap, a bad block log. Each fault is
//! told by itself, and so is each part that could not be read.
//!
//! Start with `examine_all`. It is given the bytes of a superblock, how many of its sectors could be read, and what was found
//! where else one may stand: `raw_members/` reads them.
//!
//! `raw_members/`: the bytes of a device where a member's superblock, bitmap and bad block log stand, as they are.
//! `raw_json/`: what stands on a device though it may be refused, as JSON.
//!
//! ```
//! examine_all(&mut out, 8, &bytes, &found)?;
//! ```
#![tactic(auto)]

mod bitmap_fields;
mod fields;
mod log_fields;
mod raw_bitmap;
mod raw_json;
mod raw_members;
mod super_faults;
mod super_fields;

pub use bitmap_fields::{BITMAP_FAULTS, BITMAP_FIELDS, bitmap_fault_stands, examine_bitmap_all};
pub use fields::{Field, Kind};
pub use log_fields::{LOG_FIELDS, examine_badblocks_all};
pub use raw_bitmap::{CountedMarks, RawBitmap, UnreadMarks};
pub use raw_json::{raw_bitmap_json, raw_log_json, raw_super_json};
pub use raw_members::{RawFault, RawLog, read_raw_bitmap, read_raw_log, read_raw_super};
pub use super_faults::{super_fault_is_seen, super_fault_stands};
pub use super_fields::{Found, SUPER_FIELDS, examine_all};
