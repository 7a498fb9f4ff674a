//! Writes to a device in their order, as of a bitmap and a superblock: what stands on it then, where one of them fails,
//! and where a crash cuts them short.
//!
//! Start with `put`, one write, and `store_bitmap`, several of them. `MakesWrites` in `specs/DeviceWrites/Writes.antt`
//! says it of a list of writes.
//!
//! ```
//! store_bitmap(device, 16, &member.header, &member.marks)?;
//! put(device, SUPER_SECTOR, &block)?;
//! ```

mod bitmap;
mod one_write;

pub use bitmap::{store_bitmap, store_bitmap_sector};
pub use one_write::put;
