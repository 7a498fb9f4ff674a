// Images of the vault's array, whose sectors are filled with a byte. Sector 0, of which an array makes no use, names the image.
ghost use Rattle.std.specs.Prelude.{◌≡◌, ◌*◌, length};

use example_members::{bitmap, member_image, put, seal, vault, zeros};
use md_device::{Device, MemDevice};
use std::alloc::Global;
use std::test::Fail;

// Where the data of a member begin. What stands before is metadata, whose writes a crash leaves done or not done.
pub(crate) const DATA: u64 = 2048;

const LOG: u64 = 2032;

// Of the array, in 8 chunks.
pub(crate) const SECTORS: usize = 64;

// What the array holds.
pub(crate) const FILLING: u8 = 1;

fn with_name(mut device: MemDevice, name: u8) -> Result<MemDevice, Fail>
    requires { length device ≡ 512 * 2112 }
{
    device.write(0, &[name; 512])?;
    Ok(device)
}

pub(crate) fn name_of(device: &MemDevice) -> usize {
    match device.bytes().first() {
        Some(name) => *name as usize,
        None => 0,
    }
}

// A member in sync of a clean array of so many roles, without a mark. Its number and its role are its name.
pub(crate) fn member(alloc: Global, name: u8, raid_disks: u32) -> Result<MemDevice, Fail> {
    let mut superblock = vault();
    put(&mut superblock, 92, &raid_disks.to_le_bytes());
    put(&mut superblock, 160, &u32::from(name).to_le_bytes());
    let mut marks = bitmap();
    put(&mut marks, 32, &10u64.to_le_bytes());
    put(&mut marks, 256, &[0]);
    let mut device = member_image(alloc, &seal(superblock, 2), &marks)?;
    device.write(LOG, &[0xff; 4096])?;
    device.write(DATA, &[FILLING; 512 * SECTORS])?;
    with_name(device, name)
}

// A device that was in no array.
pub(crate) fn blank(alloc: Global, name: u8) -> Result<MemDevice, Fail> {
    let device = zeros(alloc, 2112)?;
    with_name(device, name)
}
