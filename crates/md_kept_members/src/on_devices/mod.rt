//! All of a member but its data, stored on its device: its superblock, its bad block log, and its marks.
//!
//! Start with `store_member`. Which writes each function makes, and in which order, says `specs/OnDevices/Storing.antt`.
//!
//! ```
//! store_log(&mut device, &member)?;
//! store_superblock(&mut device, &shared, &member)?;
//! ```

mod log;
mod member;
mod superblock;

pub use log::store_log;
pub use member::{bitmap_start, store_member};
pub use superblock::{store_fields_on, store_superblock};
