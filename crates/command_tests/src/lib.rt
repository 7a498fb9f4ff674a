//! Tests of commands on images in memory. Some images fail or are protected, and some reads of an input are interrupted.
//! One sequence of commands makes an array, and a member comes back to it. Others test a question that can't be shown, and the
//! library's example. Here are also the tests of what only commands use: image files, and messages and sessions of NBD clients.
//!
//! Start with `Case` and `play` (`commands.rt`): a case is images, and a command on them.
//!
//! ```
//! const EXAMINED: Case = Case {
//!     words: &["mdcli", "examine-badblocks", "a"],
//!     shows: "no bad blocks\n",
//!     ..DONE
//! };
//! ```
#![tactic(auto)]

#[cfg(test)]
mod checks;
#[cfg(test)]
mod command_rows;
#[cfg(test)]
mod commands;
#[cfg(test)]
mod devices;
#[cfg(test)]
mod dice;
#[cfg(test)]
mod errors;
#[cfg(test)]
mod example;
#[cfg(test)]
mod faults_in_memory;
#[cfg(test)]
mod image_files;
#[cfg(test)]
mod images;
#[cfg(test)]
mod nbd_messages;
#[cfg(test)]
mod nbd_sessions;
#[cfg(test)]
mod nbd_spoiled;
#[cfg(test)]
mod silent;
#[cfg(test)]
mod sources;
#[cfg(test)]
mod terminal;
