// Where the parts of a new member stand, in sectors.

/// The sector of the bitmap.
pub const BITMAP_SECTOR: u32 = 16;

/// The bitmap's first sector from the superblock.
pub const BITMAP_OFFSET: i32 = 8;

/// The sectors kept for the bitmap.
pub const BITMAP_RESERVED: u32 = 2016;

/// The sector of the bad block log.
pub const LOG_SECTOR: u64 = 2032;

/// The log's first sector from the superblock.
pub const LOG_OFFSET: i32 = 2024;

/// The sectors of the log.
pub const LOG_SECTORS: u16 = 8;

/// The sector of the data.
pub const DATA_SECTOR: u64 = 2048;
