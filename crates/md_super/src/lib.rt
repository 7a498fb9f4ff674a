//! The version 1.2 superblock of an md RAID-1 array.
//!
//! Start with `decode`, which refuses what it must in a stated order, and `Superblock`, what it gives.
//!
//! ```
//! let superblock = decode(alloc, &block)?;
//! let role = superblock.role_of(superblock.dev_number);
//! superblock.encode(&mut block);
//! ```
#![tactic(auto)]

mod decoding;
mod encoding;
mod fault;
mod groups;
mod roles;
mod summing;
mod superblock;
mod try_clone;

pub use decoding::decode;
pub use encoding::encode_member;
pub use fault::SuperFault;
pub use roles::{FAULTY, MAX_ROLES, Roles, SPARE};
pub use summing::checksum;
pub use superblock::{
    CLEAN_OFFSET, FEATURE_BAD_BLOCKS, FEATURE_BITMAP_OFFSET, FEATURE_RECOVERY_OFFSET, LEVEL, MAGIC,
    MAJOR_VERSION, MAX_RAID_DISKS, SUPER_SECTOR, Superblock,
};
