//! The text of a fault: its name and its values, one space between them, as its `Display` gives it.
//!
//! Start with `put_fault_line`, which puts out what standard error is told of a command that is refused. A file has the
//! faults of one kind of call, and `specs/FaultText/` their texts under the same name.
//!
//! ```
//! put_fault_line(&mut err, &CommandFault::BadMember)?;    // mdcli: BadMember
//! ```

mod calls;
mod commands;
mod openings;
mod steps;

pub use commands::{fault_words, put_fault_line, refusal_words};
