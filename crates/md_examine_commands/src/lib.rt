//! The commands that show images by themselves: `examine`, `examine-bitmap` and `examine-badblocks` one image, and `scan` of
//! which arrays several are members. Images are only looked at.
//!
//! Start with `examine_images` (`src/examining.rt`). Each command has a report, as text or as JSON, of what is read and
//! taken, and with `--all` one of what stands there though it may be refused (`src/raw_examining.rt`). By which text an
//! image is shown is `ShownBy` in `specs/Examining.antt`, and why it is not `RefusedBy`. The texts are those of
//! `md_examine` and `md_report`, and of what may be refused those of `md_raw_reports`.
//!
//! `scan/`: superblocks are read one after another (`look_at_each`), and a report on them is put out.
//!
//! ```
//! let command = ImageCommand::ExamineBadblocks { form };
//! examine_images(alloc, command, &mut images, &["sda.img"], &mut out)?;
//! ```
#![tactic(auto)]

mod examining;
mod raw_examining;
mod reports;
mod scan;

pub use examining::examine_images;
pub use reports::show_scan;
pub use scan::{Looked, Refused, ScanFault, Seen, look_at_each};
