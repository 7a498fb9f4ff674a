//! The map file of ddrescue: which parts of a disk its copy has, and which it lacks.
//!
//! Start with `read_map`, which gives the sectors that the copy lacks; `write_map` writes such a map, and `write_map_of_read`
//! that of an array which was read.
//!
//! ```
//! let missing = read_map(alloc, &text, size)?;
//! let lacks_first = missing.meets(0, 1);
//! let map = write_map(alloc, size, 0, &missing)?;
//! ```

mod fault;
mod fields;
mod line;
mod lines_read;
mod map;
mod map_text;
mod numbers;
mod own_command;

pub use fault::{LineFault, MapFault};
pub use line::Block;
pub use map::read_map;
pub use map_text::{write_map, write_map_of_read};
pub use own_command::command_of;
