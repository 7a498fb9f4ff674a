//! A device in a file or a block device.
//!
//! Start with `FileDevice::open`. What the system itself uses (`in_use.rt`, by `mounts.rt` and `backing.rt`) can only be
//! looked at.
mod backing;
mod block_device;
mod file;
mod in_use;
mod mounts;
mod told;

pub use backing::Backing;
pub use file::FileDevice;
pub use in_use::nodes_unseen;
