// A member as a value.
use md_badblocks::BadSet;
use md_bitmap::{BitmapHeader, Marks};
use md_super::Superblock;

/// What a device says of a member. `header` and `marks` are there where the superblock has a bitmap;
/// `bad` is empty where it lists no bad blocks. `sectors` is the size of the device.
#[derive(Debug, Drop)]
pub struct MemberInfo {
    pub sectors: u64,
    pub superblock: Superblock,
    pub header: Option<BitmapHeader>,
    pub marks: Option<Marks>,
    pub bad: BadSet,
}
