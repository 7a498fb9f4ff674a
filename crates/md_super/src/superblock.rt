// The superblock as a value.
ghost use Rattle.std.specs.Prelude.{◌≡◌, slice_index_or};
ghost use Rattle.md_super.specs.Profile.{IsProfile};

use crate::roles::{Roles, SPARE};
use uuid::Uuid;

/// The magic number of a superblock (`MD_SB_MAGIC` of `md_p.h`).
pub const MAGIC: u32 = 0xa92b_4efc;

/// The major version of every superblock here.
pub const MAJOR_VERSION: u32 = 1;

/// The sector at which a version 1.2 superblock stands.
pub const SUPER_SECTOR: u64 = 8;

/// The only level of the arrays here.
pub const LEVEL: u32 = 1;

/// The most raid disks of an array here.
pub const MAX_RAID_DISKS: u32 = 32;

/// The `resync_offset` of a clean array (`MaxSector` of the kernel's md driver).
pub const CLEAN_OFFSET: u64 = u64::MAX;

/// `MD_FEATURE_BITMAP_OFFSET` of `md_p.h`: `bitmap_offset` is valid.
pub const FEATURE_BITMAP_OFFSET: u32 = 1;

/// `MD_FEATURE_RECOVERY_OFFSET` of `md_p.h`: `recovery_offset` is valid.
pub const FEATURE_RECOVERY_OFFSET: u32 = 2;

/// `MD_FEATURE_BAD_BLOCKS` of `md_p.h`: the bad block log has entries.
pub const FEATURE_BAD_BLOCKS: u32 = 8;

/// A version 1.2 superblock of a RAID-1 array. The fields are those of `struct mdp_superblock_1` of `md_p.h`
/// under their names, but for the magic number and the major version, which never differ, and the padding;
/// `roles` stands for `max_dev` and `dev_roles`. Sizes and offsets are in sectors of 512 bytes;
/// `bitmap_offset` and `bblog_offset` count from the superblock. The low 40 bits of `ctime` and `utime` are
/// seconds and the top 24 microseconds. A `resync_offset` of all ones is a clean array. `devflags` has
/// WriteMostly1 (1) and FailFast1 (2). The entries of the bad block log are shifted left by `bblog_shift`
/// bits.
#[derive(Debug, Drop)]
pub struct Superblock {
    pub feature_map: u32,
    pub set_uuid: Uuid,
    pub set_name: [u8; 32],
    pub ctime: u64,
    pub level: u32,
    pub layout: u32,
    pub size: u64,
    pub chunksize: u32,
    pub raid_disks: u32,
    pub bitmap_offset: i32,
    pub new_level: u32,
    pub reshape_position: u64,
    pub delta_disks: u32,
    pub new_layout: u32,
    pub new_chunk: u32,
    pub new_offset: u32,
    pub data_offset: u64,
    pub data_size: u64,
    pub super_offset: u64,
    pub recovery_offset: u64,
    pub dev_number: u32,
    pub cnt_corrected_read: u32,
    pub device_uuid: Uuid,
    pub devflags: u8,
    pub bblog_shift: u8,
    pub bblog_size: u16,
    pub bblog_offset: i32,
    pub utime: u64,
    pub events: u64,
    pub resync_offset: u64,
    pub sb_csum: u32,
    pub roles: Roles,
    pub ghost in_profile: { IsProfile feature_map level raid_disks super_offset },
}

impl Superblock {
    ghost use Rattle.md_super.specs.Log.{has_bad_block_log};

    /// The role of the device with this number: `SPARE` where `roles` has none for it.
    pub fn role_of(&self, dev_number: u32) -> u16
        ensures { result ≡ slice_index_or self.now.roles dev_number 0xffff }
    {
        let roles = self.roles.as_slice();
        roles.get(dev_number as usize).copied().unwrap_or(SPARE)
    }

    /// Whether the member has a bad block log: its size and its offset are not 0.
    pub fn has_bad_block_log(&self) -> bool
        ensures { result ≡ has_bad_block_log self.now }
    {
        self.bblog_size != 0 && self.bblog_offset != 0
    }
}
