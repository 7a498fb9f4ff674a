//! Why a command is refused, whatever it works on.
//!
//! Start with `CommandFault`, which has every reason. The calls that a command makes have faults of their own, and it holds these
//! unchanged. The commands are in `md_commands` and the crates beside it, the text of each fault is in `md_messages`.
//!
//! ```
//! fn first_image(words: &[&str]) -> Result<&str, CommandFault> {
//!     words.first().copied().ok_or(CommandFault::BadCount)
//! }
//! ```
#![tactic(auto)]

mod data_of_fault;
mod fault;
mod option_fault;

pub use data_of_fault::DataOfFault;
pub use fault::CommandFault;
pub use option_fault::OptionFault;
