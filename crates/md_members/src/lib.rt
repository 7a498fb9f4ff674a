//! The members of an array, read from their devices.
//!
//! Start with `read_member`, which reads a superblock, its bitmap and its bad block log; `read_super` reads
//! the first alone. Whether the bitmap tells of the array is `accepted`.
//!
//! `device_writes/`: writes to a device in their order, as of a bitmap and a superblock.
//!
//! ```
//! let info = read_member(alloc, &mut device)?;
//! let events = info.superblock.events;
//! let lists = info.bad.meets(info.superblock.data_offset, 8);
//! ```
#![tactic(auto)]

mod area;
mod bitmap;
mod device_writes;
mod fault;
mod info;
mod log;
mod member;
mod placing;
mod super_read;

pub use device_writes::{put, store_bitmap, store_bitmap_sector};
pub use fault::MemberFault;
pub use info::MemberInfo;
pub use member::{accepted, read_member};
pub use super_read::read_super;
