// The bitmap of a member.
ghost use Rattle.std.specs.Prelude.{◌≡◌, ◌≤◌, ◌+◌, ◌*◌, ◌/◌, ◌^◌, length, true, IfOk};
ghost use Rattle.md_device.specs.Crashes.{LeavesMore};
ghost use Rattle.md_device.specs.Failing.{OnlyReadsFailed};
ghost use Rattle.md_members.specs.Areas.{AreAreasPlaced, bitmap_sectors, has_bitmap};
ghost use Rattle.md_members.specs.Reading.{BitmapStartsAt, CallFails, GivesBitmap, GivesMarks, UnlessReadFault};

use crate::fault::MemberFault;
use crate::placing::is_placed;
use crate::super_read::read_sectors;
use md_bitmap::{BitmapFault, BitmapHeader, Chunks, Marks, has_few_chunks, sectors_of_bitmap};
use md_device::Device;
use md_format::array_at;
use md_super::{SUPER_SECTOR, Superblock};
use std::alloc::{AllocError, Global};

/// Reads the bitmap's header in its first sector, and then its whole area, each once.
#[tactic(auto, using(md_device::proofs::Failing::fails_none, md_device::proofs::Failing::fails_then, md_device::proofs::Failing::fails_call))]
pub(crate) fn read_bitmap<D: Device>(
    alloc: Global,
    device: &mut D,
    v: &Superblock,
) -> Result<(BitmapHeader, Marks), MemberFault>
    requires bitmap { has_bitmap v.now ≡ true }
    requires placed { AreAreasPlaced (length (D.content device.old) / 512) v.now 1 }
    ensures kept { D.content device.new ≡ D.content device.old }
    ensures honest { D.honest device.new ≡ D.honest device.old }
    ensures counted { D.failures device.old ≤ D.failures device.new }
    ensures grown { OnlyReadsFailed (D.faults device.old) (D.faults device.new) }
    ensures unfailing { UnlessReadFault result (D.failures device.new ≡ D.failures device.old) }
    ensures within { D.honest device.old ≡ true → LeavesMore (D.crashes device.old) (D.crashes device.new) (λ left. left ≡ D.content device.old) }
    ensures reads { GivesBitmap (D.content device.old) (D.honest device.old) (CallFails D.Device device.old device.new) (length (D.content device.old) / 512) v.now result }
{
    let device_sectors = device.sectors();
    let start = start_of_bitmap(v, device_sectors);
    let mut sector = [0; 512];
    read_sectors(device, start, &mut sector)?;
    let header = BitmapHeader::decode(&array_at(&sector, 0)).map_err(MemberFault::Bitmap)?;
    if !has_few_chunks(v.size, header.chunksize) {
        return Err(MemberFault::Bitmap(BitmapFault::TooManyChunks));
    }
    let chunks = Chunks::new(v.size, header.chunksize).count();
    let sectors = u64::from(sectors_of_bitmap(chunks));
    if !is_placed(v, device_sectors, sectors) {
        return Err(MemberFault::Region);
    }
    let marks = read_marks(alloc, device, start, chunks, sectors)?;
    Ok((header, marks))
}

// The device's sector where the bitmap starts.
fn start_of_bitmap(v: &Superblock, sectors: u64) -> u64
    requires limit { sectors ≤ 2 ^ 54 }
    requires bitmap { has_bitmap v.now ≡ true }
    requires placed { AreAreasPlaced sectors v.now 1 }
    ensures start { BitmapStartsAt v.now result }
    ensures room { result + 1 ≤ sectors }
{
    (SUPER_SECTOR as i64 + i64::from(v.bitmap_offset)) as u64
}

// The marks in the bitmap's area.
#[tactic(auto, using(md_device::proofs::Failing::fails_none, md_device::proofs::Failing::fails_then, md_device::proofs::Failing::fails_call))]
fn read_marks<D: Device>(
    alloc: Global,
    device: &mut D,
    start: u64,
    chunks: u32,
    sectors: u64,
) -> Result<Marks, MemberFault>
    requires few { chunks ≤ 1048576 }
    requires sectors { sectors ≡ bitmap_sectors chunks }
    requires room { 512 * (start + sectors) ≤ length (D.content device.old) }
    ensures kept { D.content device.new ≡ D.content device.old }
    ensures honest { D.honest device.new ≡ D.honest device.old }
    ensures counted { D.failures device.old ≤ D.failures device.new }
    ensures grown { OnlyReadsFailed (D.faults device.old) (D.faults device.new) }
    ensures unfailing { UnlessReadFault result (D.failures device.new ≡ D.failures device.old) }
    ensures within { D.honest device.old ≡ true → LeavesMore (D.crashes device.old) (D.crashes device.new) (λ left. left ≡ D.content device.old) }
    ensures reads { GivesMarks (D.content device.old) (D.honest device.old) (CallFails D.Device device.old device.new) start chunks sectors result }
{
    let Ok(mut area) = zeros(alloc, 512 * sectors as usize) else {
        return Err(MemberFault::NoMemory);
    };
    read_sectors(device, start, &mut area)?;
    match Marks::from_bytes(alloc, chunks, &area[256..]) {
        Ok(marks) => Ok(marks),
        Err(_) => Err(MemberFault::NoMemory),
    }
}

fn zeros(alloc: Global, len: usize) -> Result<Vec<u8>, AllocError>
    ensures { IfOk result (λ bytes. length bytes.items ≡ len) }
{
    vec![in alloc; 0; len]
}
