//! The example member that the crates of tests are built on, and images of such members.
//!
//! Start with `small_member`, a device with a member of a mirror of two; `vault` is its superblock, of which
//! `put` changes a field and `seal` the checksum.
//!
//! ```
//! let first = small_member(alloc, 0)?;
//! let mut superblock = vault();
//! put(&mut superblock, 200, &11u64.to_le_bytes());
//! let newer = image(alloc, &seal(superblock, 2))?;
//! ```
#![tactic(auto)]

mod images;
mod metadata;
mod small_members;

pub use images::{image, member_image, zeros};
pub use metadata::{bitmap, put, seal, vault};
pub use small_members::{SMALL_DATA, copy_of, small_image, small_member, small_metadata};
