//! Reports on the parts of a member, as text: a superblock, a bitmap, bad blocks. Also the lines that reports are made of, and the
//! reasons why a device is not read as a member.
//!
//! Start with `examine`. A report goes to a `Sink` of `md_streams`. `md_raw_reports` shows what a device holds even if it would be
//! refused.
//!
//! ```
//! let mut out = Buffered::new(alloc, Output::new(writer));
//! examine(&mut out, &superblock)?;
//! out.flush()?;
//! ```
#![tactic(auto)]

mod badblocks_report;
mod bitmap_report;
mod columns;
mod lines;
mod members;
mod superblock_report;
mod values;

pub use badblocks_report::examine_badblocks;
pub use bitmap_report::examine_bitmap;
pub use columns::{right_aligned, right_aligned_number};
pub use lines::{
    decimal_line, hex_line, hex8_line, line, marks_line, name_line, sectors_line, three_part_line,
    two_part_line, unit_line, uuid_line,
};
pub use members::put_member;
pub use superblock_report::{cleanness, examine, state_letters};
pub use values::{hex_digits, name_len, shown_bytes};
