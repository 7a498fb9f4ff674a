//! Tests of whole calls on a mirror, which read, write, resync, stop, check and rebuild it: what they answer,
//! what the mirror shows then, and what they leave on the devices. Most are rows of calls and answers, which
//! one function plays.
//!
//! Start with `Row` and `play` (`play.rt`), and with `Call` and `Answer` (`call.rt`).
//!
//! ```
//! const READ_BACK: Row = Row {
//!     members: &[FIRST, SECOND],
//!     calls: &[(Call::Write(8, 1), Answer::Done), (Call::Stop, Answer::Done)],
//!     ..ROW
//! };
//! ```
mod array_checks;
mod call;
mod created;
mod data;
mod failing_reads;
mod left;
mod listed_sectors;
mod members;
mod play;
mod reads;
mod rebuilds;
mod resyncs;
mod run;
mod salvage_rows;
mod salvages;
mod told;
mod unresynced_reads;
mod write_mostly;
mod writes;
