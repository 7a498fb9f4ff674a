// Members of the example array on small devices, which have room for its metadata and its data and no more.
use crate::images::zeros;
use crate::metadata::{bitmap, put, seal, vault};
use md_device::{Device, MemDevice};
use std::alloc::Global;
use std::test::Fail;

/// The sector where the data area of a small member starts. It ends where the device ends.
pub const SMALL_DATA: u64 = 24;

const SMALL_SECTORS: u64 = 88;

const SMALL_BITMAP: u64 = 16;

/// The superblock of a small member with this number, not sealed yet, and the first 4096 bytes of its
/// bitmap. Both are at these events. No chunk is marked, and there is no log of bad blocks.
pub fn small_metadata(number: u32, events: u64) -> ([u8; 4096], [u8; 4096]) {
    let mut superblock = vault();
    put(&mut superblock, 128, &SMALL_DATA.to_le_bytes());
    put(&mut superblock, 160, &number.to_le_bytes());
    put(&mut superblock, 186, &[0; 6]);
    put(&mut superblock, 200, &events.to_le_bytes());
    let mut marks = bitmap();
    put(&mut marks, 24, &events.to_le_bytes());
    put(&mut marks, 32, &events.to_le_bytes());
    put(&mut marks, 256, &[0]);
    (superblock, marks)
}

/// A small device with this superblock, sealed with two roles, and this bitmap.
pub fn small_image(
    alloc: Global,
    superblock: [u8; 4096],
    marks: &[u8; 4096],
) -> Result<MemDevice, Fail> {
    let mut device = zeros(alloc, SMALL_SECTORS)?;
    device.write(8, &seal(superblock, 2))?;
    device.write(SMALL_BITMAP, marks)?;
    Ok(device)
}

/// A small member of the vault's array, whose count is 10.
pub fn small_member(alloc: Global, number: u32) -> Result<MemDevice, Fail> {
    let (superblock, marks) = small_metadata(number, 10);
    small_image(alloc, superblock, &marks)
}

/// A device with the same bytes.
pub fn copy_of(alloc: Global, device: &MemDevice) -> Result<MemDevice, Fail> {
    let bytes = device.bytes().to_vec(alloc)?;
    if bytes.len() % 512 != 0 {
        return Err(Fail::new("a part of a sector"));
    }
    Ok(MemDevice::from_bytes(bytes))
}
