// Storing a bitmap.
ghost use Rattle.std.specs.Prelude.{◌≡◌, ◌≤◌, ◌<◌, ◌*◌, ◌+◌, ◌-◌, [], ◌∷◌, length, replicate};
ghost use Rattle.md_device.specs.Splice.{SameOutside};
ghost use Rattle.md_bitmap.specs.Sectors.{bitmap_sectors};
ghost use Rattle.md_members.specs.DeviceWrites.Bitmaps.{bitmap_run, bitmap_runs, bitmap_write, bitmap_writes, run_sectors, runs_of, sectors_write};
ghost use Rattle.md_members.specs.DeviceWrites.Writes.{MakesWrites};

use crate::device_writes::one_write::put;
use md_bitmap::{BLOCK_BYTES, BitmapHeader, Marks, sectors_of_bitmap};
use md_device::{Device, WriteFault};

// The most sectors of a bitmap that one write stores, 64 KiB.
const RUN_SECTORS: u32 = 128;

const RUN_BYTES: usize = 65536;

/// Stores a bitmap: the sectors after the first by writes of up to 64 KiB, the last ones first, and then
/// the first, which has the header, by a write of its own. So until all marks are stored the header is
/// the one that was there. `start` is the bitmap's first sector on the device: it is below 2^32, since
/// the superblock has it as an `i32`. No memory is taken.
pub fn store_bitmap<D: Device>(
    device: &mut D,
    start: u32,
    header: &BitmapHeader,
    marks: &Marks,
) -> Result<(), WriteFault>
    requires few_chunks { marks.now.chunks ≤ 1048576 }
    requires room { 512 * (start + bitmap_sectors marks.now.chunks) ≤ length (D.content device.old) }
    ensures writes { MakesWrites D.Device (bitmap_writes start header.now marks.now (bitmap_sectors marks.now.chunks)) device.old device.new result }
    ensures outside { SameOutside (512 * start) (512 * bitmap_sectors marks.now.chunks) (D.content device.old) (D.content device.new) }
{
    let sectors = sectors_of_bitmap(marks.chunks());
    store_runs(device, start, header, marks, sectors)?;
    store_bitmap_sector(device, start, header, marks, 0)
}

/// Writes sector `i` of a bitmap. `start` is the first sector of the bitmap, as in `store_bitmap`.
pub fn store_bitmap_sector<D: Device>(
    device: &mut D,
    start: u32,
    header: &BitmapHeader,
    marks: &Marks,
    i: u32,
) -> Result<(), WriteFault>
    requires { 512 * (start + i) + 512 ≤ length (D.content device.old) }
    ensures writes { MakesWrites D.Device (bitmap_write start header.now marks.now i ∷ []) device.old device.new result }
    ensures outside { SameOutside (512 * (start + i)) 512 (D.content device.old) (D.content device.new) }
{
    let sector = marks.block(header, i);
    put(device, u64::from(start) + u64::from(i), &sector)
}

// Writes the sectors of a bitmap after its first, the last run first.
fn store_runs<D: Device>(
    device: &mut D,
    start: u32,
    header: &BitmapHeader,
    marks: &Marks,
    sectors: u32,
) -> Result<(), WriteFault>
    requires few { sectors ≤ 257 }
    requires some { 0 < sectors }
    requires room { 512 * (start + sectors) ≤ length (D.content device.old) }
    ensures writes { MakesWrites D.Device (bitmap_runs start header.now marks.now sectors (runs_of sectors)) device.old device.new result }
    ensures outside { SameOutside (512 * (start + 1)) (512 * (sectors - 1)) (D.content device.old) (D.content device.new) }
{
    let mut left = (sectors - 1).div_ceil(RUN_SECTORS);
    while left > 0 {
        left -= 1;
        store_run(device, start, header, marks, sectors, left)?;
    }
    Ok(())
}

// Writes run `k` of the sectors of a bitmap after its first.
fn store_run<D: Device>(
    device: &mut D,
    start: u32,
    header: &BitmapHeader,
    marks: &Marks,
    sectors: u32,
    k: u32,
) -> Result<(), WriteFault>
    requires few { sectors ≤ 257 }
    requires within { 1 + 128 * k < sectors }
    requires room { 512 * (start + sectors) ≤ length (D.content device.old) }
    ensures writes { MakesWrites D.Device (bitmap_run start header.now marks.now sectors k ∷ []) device.old device.new result }
    ensures outside { SameOutside (512 * (start + (1 + 128 * k))) (512 * run_sectors sectors k) (D.content device.old) (D.content device.new) }
{
    let first = 1 + RUN_SECTORS * k;
    let count = RUN_SECTORS.min(sectors - first);
    let mut zeros = [0; RUN_BYTES];
    store_sectors(device, start, header, marks, first, count, &mut zeros)
}

// Writes `count` sectors of a bitmap from its sector `first` on, made in place of the zeros.
fn store_sectors<D: Device>(
    device: &mut D,
    start: u32,
    header: &BitmapHeader,
    marks: &Marks,
    first: u32,
    count: u32,
    zeros: &mut [u8],
) -> Result<(), WriteFault>
    requires long { 512 * count ≤ length zeros.old }
    requires zeros { zeros.old ≡ replicate (length zeros.old) 0 }
    requires some { 0 < count }
    requires room { 512 * (start + (first + count)) ≤ length (D.content device.old) }
    ensures writes { MakesWrites D.Device (sectors_write start header.now marks.now first count ∷ []) device.old device.new result }
    ensures outside { SameOutside (512 * (start + first)) (512 * count) (D.content device.old) (D.content device.new) }
{
    let run = &mut zeros[..BLOCK_BYTES * count as usize];
    marks.put_blocks(header, first, run);
    put(device, u64::from(start) + u64::from(first), run)
}
