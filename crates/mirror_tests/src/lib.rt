//! Tests of everything that needs no command: of what is below or beside a mirror (`parts`), of a mirror's steps and members
//! (`steps`), of whole calls on it (`calls`), and of what a crash leaves (`crashes`). Most are rows of steps or calls
//! with their answers, and one function plays the rows.
//!
//! Start with the head of such a folder, for example `steps/mod.rt`. A comparison is a call of `checks.rt`.
//!
//! ```
//! const READ_BACK: Row = Row {
//!     members: &[FIRST, SECOND],
//!     calls: &[(Call::Write(8, 1), Answer::Done), (Call::Stop, Answer::Done)],
//!     ..ROW
//! };
//! ```
#![tactic(auto)]

#[cfg(test)]
mod calls;
#[cfg(test)]
mod checks;
#[cfg(test)]
mod crashes;
#[cfg(test)]
mod gates;
#[cfg(test)]
mod open;
#[cfg(test)]
mod parts;
#[cfg(test)]
mod steps;
