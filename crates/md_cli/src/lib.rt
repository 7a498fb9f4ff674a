//! The commands of the program, over images that are found by name.
//!
//! Start with `run` (`running.rt`), and what it gives, `Obeys` in `specs/Running.antt`. A command on an array goes one way: its
//! images are taken and opened as a mirror, in which what images lack by their maps counts as listed, and the command is done with
//! it (`performing.rt`). The commands on one image are in `md_examine_commands`, what is told and asked in `md_messages`. `scan`
//! tells of which arrays images are members (`scanning.rt`).
//!
//! `open/`: how a command on an array opens it.
//! `lists/`: what images lack, as part of the lists of bad blocks.
//! `create/`: the command that makes an array.
//!
//! ```
//! let words = ["mdcli", "detail", "sda.img", "sdb.img"];
//! let parsed = parse(alloc, &words);
//! let status = run(&mut session, &words, parsed, &mut images, &mut err, Messages::Plain);
//! ```
#![tactic(auto)]

mod create;
mod growing;
mod lists;
mod open;
mod performing;
mod reading_on;
mod refusing;
mod running;
mod scanning;
mod session;
mod show_short;

pub use open::stand_in_of;
pub use refusing::show_why;
pub use running::run;
pub use scanning::{ScanOptions, scan};
pub use session::Session;
