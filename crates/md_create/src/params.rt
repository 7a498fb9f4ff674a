// What an array is made from, and what is made.
ghost use Rattle.md_create.specs.Places.{IsNew};

use md_bitmap::{BitmapHeader, Marks};
use md_super::Superblock;
use uuid::Uuid;

/// What an array is made from, besides its devices. `size` is in sectors; without it the array is as
/// large as the least device lets it be. The low 40 bits of `ctime` are seconds and the top 24
/// microseconds. `chunk_bytes` is the chunk size of the bitmap. With `assume_clean` the devices are
/// taken to agree already, and no chunk is marked. The member of the role `write_mostly` is read only
/// where no other can serve.
#[derive(Clone, Copy, Debug, PartialEq, Eq)]
pub struct CreateParams {
    pub set_uuid: Uuid,
    pub name: [u8; 32],
    pub ctime: u64,
    pub size: Option<u64>,
    pub chunk_bytes: u32,
    pub assume_clean: bool,
    pub write_mostly: Option<u32>,
}

/// A member that can be laid out on a device: its superblock, and its bitmap's header and marks. Its
/// superblock is at sector 8, its bitmap at 16, its bad block log of 8 sectors at 2032, and its data
/// start at 2048.
#[derive(Debug, Drop)]
pub struct NewMember {
    pub superblock: Superblock,
    pub header: BitmapHeader,
    pub marks: Marks,
    pub ghost new: { IsNew superblock header marks },
}
