//! The bytes of a device where a member's superblock, bitmap and bad block log stand, as they are: they may be damaged, and some
//! may not be read. A device is only read.
//!
//! Start with `read_raw_super`, which also says what else was found where a superblock might stand.
//!
//! ```
//! let mut bytes = [0; 4096];
//! let (sectors, found) = read_raw_super(&mut device, &mut bytes)?;
//! ```

mod counting;
mod elsewhere;
mod fault;
mod parts;
mod read_parts;

pub use fault::RawFault;
pub use parts::{read_raw_bitmap, read_raw_log, read_raw_super};
pub use read_parts::RawLog;
