//! The words of the command line: the commands and their options, as clap is told of them, and what
//! words ask for.
//!
//! Start with `parse`, and `Command`; the methods of `ArrayCommand` say what a command may do with its images.
//!
//! ```
//! let request = parse(alloc, &["detail", "sda.img", "sdb.img"])?;
//! let is_json = request.command.is_json();
//! ```
#![tactic(auto)]

mod array_command;
mod command;
mod command_line;
mod commands;
mod create_options;
mod form;
mod help;
mod image_command;
mod long_task;
mod loss;
mod overwritten;
mod parsing;
mod request;
mod sizes;

pub use array_command::ArrayCommand;
pub use command::Command;
pub use create_options::CreateOptions;
pub use form::{CheckForm, DetailForm, ImageForm, RebuildForm};
pub use image_command::ImageCommand;
pub use long_task::LongTask;
pub use loss::Loss;
pub use overwritten::Overwritten;
pub use parsing::parse;
pub use request::Request;
