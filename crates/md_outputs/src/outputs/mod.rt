//! Where a command's output goes, and what the program says about its files.
//!
//! Start with `opened_of` in `destinations.rt`: standard output, a new file (`output_file.rt`), or the file of a read that goes on.
//! `Ending` ends it, and writes the map of `--map-out` (`map_out.rt`). The code of the files is in `made/` and `resuming/`.
//!
//! ```
//! let opened = opened_of(rt, &parsed, resumed, standard, messages, &mut err)?;
//! let ending = Ending::begin(rt, &parsed, messages, &mut err)?;
//! let is_done = ending.is_done(rt, opened.outputs, count, of_all, messages, &mut err);
//! ```

mod destinations;
mod map_out;
mod output_file;

pub use destinations::{Ending, Opened, Outputs, is_output_ended, opened_of, tell_resume_fault};
pub use map_out::tell_map_out;
pub use output_file::{output_of, tell_output};
