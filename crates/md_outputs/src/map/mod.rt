//! The map of a read that may go on: for what it is made, what it says, and how it is kept.
//!
//! Start with `Purpose`, which writes the text of a map and reads it; `Identity` says from what is read, `file_end.rt` which file it is
//! and how it ends, `Lacking` which sectors were not given. `KeptMap` is the map under its name.
//!
//! ```
//! let purpose = Purpose::new(alloc, "array.img", identity, 0)?;
//! let map = KeptMap::new(rt, path, file);
//! map.begin(&purpose.unmade()?)?;
//! ```

mod file_end;
mod identity;
mod kept_map;
mod lacking;
mod resume_fault;
mod resumed_map;

pub(crate) use file_end::{end_line, file_line};
pub use identity::Identity;
pub(crate) use identity::IdentityFault;
pub(crate) use kept_map::KeptMap;
pub use lacking::Lacking;
pub use resume_fault::{Difference, Kept, ResumeFault, resume_advice};
pub(crate) use resumed_map::{HEADING, Progressed, Purpose, Standing};
