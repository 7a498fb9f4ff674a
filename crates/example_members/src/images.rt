// Images in memory. That their bytes are these is left out, so that no proof spells them out.
ghost use Rattle.std.specs.Prelude.{◌≡◌, ◌*◌, ◌^◌, ◌≤◌, IfOk, length};

use md_device::{Device, MemDevice};
use md_super::SUPER_SECTOR;
use std::alloc::{AllocError, Global};
use std::test::Fail;

/// The sectors of a member's image.
const SECTORS: u64 = 2112;

/// Where its bitmap is.
const BITMAP_SECTOR: u64 = 16;

/// A device of so many sectors of zeros.
pub fn zeros(alloc: Global, sectors: u64) -> Result<MemDevice, AllocError>
    requires { sectors ≤ 2 ^ 54 }
    ensures { IfOk result (λ device. length device ≡ 512 * sectors) }
{
    MemDevice::new(alloc, sectors)
}

/// An image of 2112 sectors with this superblock, and zeros elsewhere.
pub fn image(alloc: Global, superblock: &[u8; 4096]) -> Result<MemDevice, Fail>
    ensures { IfOk result (λ device. length device ≡ 512 * 2112) }
{
    let mut device = zeros(alloc, SECTORS)?;
    device.write(SUPER_SECTOR, superblock)?;
    Ok(device)
}

/// An image with this superblock, and these bytes as the first 4096 of its bitmap.
pub fn member_image(
    alloc: Global,
    superblock: &[u8; 4096],
    bitmap: &[u8; 4096],
) -> Result<MemDevice, Fail>
    ensures { IfOk result (λ device. length device ≡ 512 * 2112) }
{
    let mut device = image(alloc, superblock)?;
    device.write(BITMAP_SECTOR, bitmap)?;
    Ok(device)
}
