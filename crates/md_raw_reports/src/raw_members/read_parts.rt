// The parts of a member whose place the superblock gives, though it may be damaged.
ghost use Rattle.std.specs.Prelude.{◌≡◌, ◌<◌, ◌≤◌, ◌+◌, ◌*◌, ◌%◌, ◌^◌, ℕ, IfErr, IfOk, MatchOption, OnErr, OnOk, length, take, true};
ghost use Rattle.md_device.specs.Failing.{AddsItself, OnlyReadsFailed, failed_read};
ghost use Rattle.md_members.specs.Reading.{CallFails, HasSuperSectors, IsRead, IsReadOf};
ghost use Rattle.md_raw_reports.specs.RawMembers.Raw.{FitsAt, IsOn, ReadsBitmapAt, ReadsFront, ReadsLogAt, ReadsLogOf, ReadsPlacedBitmap, RefusesArea, RefusesRawSuper, RefusesSector, StartsAt, TriesFront, size_of_log};

use crate::raw_bitmap::RawBitmap;
use crate::raw_members::counting::count_marks;
use crate::raw_members::fault::RawFault;
use md_device::{Device, ReadFault};
use md_format::{u16_at, u32_at};
use md_super::{FEATURE_BITMAP_OFFSET, SUPER_SECTOR};

// The sectors up to the superblock's end.
const LEAST_SECTORS: u64 = 16;

// The sectors of a superblock.
const SUPER_SECTORS: u32 = 8;

// The most sectors of a bad block log.
const MAX_LOG_SECTORS: u16 = 8;

/// What was read of a bad block log: so many bytes, or none from this sector on, where it could not be read.
#[derive(Clone, Copy)]
pub struct RawLog {
    pub len: usize,
    pub lost: Option<u64>,
}

/// Reads sectors 8 to 15 at once, whatever stands there, or where that fails the first of them alone. The answer is how many of
/// them were read.
#[tactic(auto, using(md_device::proofs::Failing::fails_none, md_device::proofs::Failing::fails_then, md_device::proofs::Failing::fails_call))]
pub(crate) fn read_super_bytes<D: Device>(
    device: &mut D,
    bytes: &mut [u8; 4096],
) -> Result<u32, RawFault>
    ensures kept { D.content device.new ≡ D.content device.old }
    ensures honest { D.honest device.new ≡ D.honest device.old }
    ensures counted { D.failures device.old ≤ D.failures device.new }
    ensures grown { OnlyReadsFailed (D.faults device.old) (D.faults device.new) }
    ensures ok { IfOk result (λ sectors. ReadsFront (D.content device.old) (D.honest device.old) (CallFails D.Device device.old device.new) sectors bytes.new) }
    ensures tried { IfOk result (λ sectors.
        TriesFront (D.honest device.old) (D.failures device.old) (D.failures device.new) sectors) }
    ensures refused { IfErr result (λ fault. RefusesRawSuper (D.content device.old) fault) }
{
    if device.sectors() < LEAST_SECTORS {
        return Err(RawFault::TooShort);
    }
    Ok(read_front(device, bytes))
}

// Reads all of them, or the first alone.
#[tactic(auto, using(md_device::proofs::Failing::fails_none, md_device::proofs::Failing::fails_then, md_device::proofs::Failing::fails_call))]
fn read_front<D: Device>(device: &mut D, bytes: &mut [u8; 4096]) -> u32
    requires long { HasSuperSectors (D.content device.old) }
    ensures kept { D.content device.new ≡ D.content device.old }
    ensures honest { D.honest device.new ≡ D.honest device.old }
    ensures counted { D.failures device.old ≤ D.failures device.new }
    ensures grown { OnlyReadsFailed (D.faults device.old) (D.faults device.new) }
    ensures front { ReadsFront (D.content device.old) (D.honest device.old) (CallFails D.Device device.old device.new) result bytes.new }
    ensures tried { TriesFront (D.honest device.old) (D.failures device.old) (D.failures device.new) result }
{
    match read_sectors(device, SUPER_SECTOR, bytes) {
        Ok(()) => SUPER_SECTORS,
        Err(_) => read_first(device, bytes),
    }
}

// Reads the first of them, if it can be.
#[tactic(auto, using(md_device::proofs::Failing::fails_none, md_device::proofs::Failing::fails_then, md_device::proofs::Failing::fails_call))]
fn read_first<D: Device>(device: &mut D, bytes: &mut [u8; 4096]) -> u32
    requires long { HasSuperSectors (D.content device.old) }
    ensures kept { D.content device.new ≡ D.content device.old }
    ensures honest { D.honest device.new ≡ D.honest device.old }
    ensures counted { D.failures device.old ≤ D.failures device.new }
    ensures grown { OnlyReadsFailed (D.faults device.old) (D.faults device.new) }
    ensures few { result ≤ 1 }
    ensures tried { result ≡ 0 → D.failures device.old < D.failures device.new }
    ensures read { IsRead (D.content device.old) (D.honest device.old) 8 (512 * result) (take (512 * result) bytes.new) }
{
    match read_sectors(device, SUPER_SECTOR, &mut bytes[..512]) {
        Ok(()) => 1,
        Err(_) => 0,
    }
}

/// Reads the bitmap that the bytes of a superblock place, as far as it can be read, each sector once.
#[tactic(auto, using(md_device::proofs::Failing::fails_none, md_device::proofs::Failing::fails_then, md_device::proofs::Failing::fails_call))]
pub(crate) fn read_bitmap<D: Device>(
    device: &mut D,
    superblock: &[u8; 4096],
) -> Result<RawBitmap, RawFault>
    ensures kept { D.content device.new ≡ D.content device.old }
    ensures honest { D.honest device.new ≡ D.honest device.old }
    ensures counted { D.failures device.old ≤ D.failures device.new }
    ensures grown { OnlyReadsFailed (D.faults device.old) (D.faults device.new) }
    ensures ok { IfOk result (λ bitmap. ReadsPlacedBitmap (D.content device.old) (D.honest device.old) (CallFails D.Device device.old device.new) superblock.now bitmap) }
    ensures refused { IfErr result (λ fault. RefusesSector (D.content device.old) superblock.now fault) }
{
    if u32_at(superblock, 8) & FEATURE_BITMAP_OFFSET == 0 {
        return Err(RawFault::NoBitmap);
    }
    let offset = u32_at(superblock, 96).cast_signed();
    let Some(start) = place_of(offset, 1, device.sectors()) else {
        return Err(RawFault::Region);
    };
    Ok(read_bitmap_at(device, start))
}

// Its first sector, and then its marks.
#[tactic(auto, using(md_device::proofs::Failing::fails_none, md_device::proofs::Failing::fails_then, md_device::proofs::Failing::fails_call))]
fn read_bitmap_at<D: Device>(device: &mut D, start: u64) -> RawBitmap
    requires limit { start < 2 ^ 54 }
    requires on { IsOn (D.content device.old) start }
    ensures kept { D.content device.new ≡ D.content device.old }
    ensures honest { D.honest device.new ≡ D.honest device.old }
    ensures counted { D.failures device.old ≤ D.failures device.new }
    ensures grown { OnlyReadsFailed (D.faults device.old) (D.faults device.new) }
    ensures reads { ReadsBitmapAt (D.content device.old) (D.honest device.old) (CallFails D.Device device.old device.new) start result }
{
    let mut sector = [0; 512];
    match read_sectors(device, start, &mut sector) {
        Ok(()) => {
            let marks = count_marks(device, start, &sector);
            RawBitmap::Read(sector, marks)
        }
        Err(_) => RawBitmap::Unreadable(start),
    }
}

/// Reads the bad block log that the bytes of a superblock place, once, into the front of `bytes`.
#[tactic(auto, using(md_device::proofs::Failing::fails_none, md_device::proofs::Failing::fails_then, md_device::proofs::Failing::fails_call))]
pub(crate) fn read_log_area<D: Device>(
    device: &mut D,
    superblock: &[u8; 4096],
    bytes: &mut [u8; 4096],
) -> Result<RawLog, RawFault>
    ensures kept { D.content device.new ≡ D.content device.old }
    ensures honest { D.honest device.new ≡ D.honest device.old }
    ensures counted { D.failures device.old ≤ D.failures device.new }
    ensures grown { OnlyReadsFailed (D.faults device.old) (D.faults device.new) }
    ensures few { IfOk result (λ log. log.len ≤ 4096) }
    ensures ok { IfOk result (λ log. ReadsLogOf (D.content device.old) (D.honest device.old) (CallFails D.Device device.old device.new) superblock.now bytes.new log) }
    ensures refused { IfErr result (λ fault. RefusesArea (D.content device.old) superblock.now fault) }
{
    let sectors = u16_at(superblock, 186);
    let offset = u32_at(superblock, 188).cast_signed();
    if sectors == 0 || offset == 0 {
        return Ok(RawLog { len: 0, lost: None });
    }
    if sectors > MAX_LOG_SECTORS {
        return Err(RawFault::Region);
    }
    let Some(start) = place_of(offset, u64::from(sectors), device.sectors()) else {
        return Err(RawFault::Region);
    };
    Ok(read_log_at(device, superblock, start, bytes))
}

// Of as many sectors as the superblock says, from this one on.
#[tactic(auto, using(md_device::proofs::Failing::fails_none, md_device::proofs::Failing::fails_then, md_device::proofs::Failing::fails_call))]
fn read_log_at<D: Device>(
    device: &mut D,
    superblock: &[u8; 4096],
    start: u64,
    bytes: &mut [u8; 4096],
) -> RawLog
    requires few { size_of_log superblock.now ≤ 8 }
    requires fits { FitsAt (D.content device.old) start (size_of_log superblock.now) }
    ensures kept { D.content device.new ≡ D.content device.old }
    ensures honest { D.honest device.new ≡ D.honest device.old }
    ensures counted { D.failures device.old ≤ D.failures device.new }
    ensures grown { OnlyReadsFailed (D.faults device.old) (D.faults device.new) }
    ensures few { result.len ≤ 4096 }
    ensures reads { ReadsLogAt (D.content device.old) (D.honest device.old) (CallFails D.Device device.old device.new) superblock.now bytes.new start result }
{
    let n = 512 * usize::from(u16_at(superblock, 186));
    match read_sectors(device, start, &mut bytes[..n]) {
        Ok(()) => RawLog { len: n, lost: None },
        Err(_) => RawLog {
            len: 0,
            lost: Some(start),
        },
    }
}

// The sector at this offset from the superblock, where so many sectors from there on are on a device of this size.
fn place_of(offset: i32, sectors: u64, size: u64) -> Option<u64>
    requires limit { size ≤ 2 ^ 54 }
    requires few { sectors ≤ 8 }
    ensures { MatchOption result ((start : ℕ) → StartsAt offset start → start + sectors ≤ size → ⊥) (λ start. StartsAt offset start × (start + sectors ≤ size)) }
{
    let start = SUPER_SECTOR as i64 + i64::from(offset);
    if start < 0 {
        return None;
    }
    let start = start as u64;
    if start + sectors > size {
        return None;
    }
    Some(start)
}

// Fills `buf` with the bytes from `sector` on, by one read.
#[tactic(auto, using(md_device::proofs::Failing::fails_none, md_device::proofs::Failing::fails_then, md_device::proofs::Failing::fails_call))]
pub(crate) fn read_sectors<D: Device>(
    device: &mut D,
    sector: u64,
    buf: &mut [u8],
) -> Result<(), ReadFault>
    requires whole { length buf.old % 512 ≡ 0 }
    requires within { 512 * sector + length buf.old ≤ length (D.content device.old) }
    ensures kept { D.content device.new ≡ D.content device.old }
    ensures honest { D.honest device.new ≡ D.honest device.old }
    ensures counted { D.failures device.old ≤ D.failures device.new }
    ensures faults { AddsItself result (failed_read sector (length buf.old)) (D.faults device.old) (D.faults device.new) }
    ensures len { length buf.new ≡ length buf.old }
    ensures ok { OnOk result (IsRead (D.content device.old) (D.honest device.old) sector (length buf.old) buf.new) }
    ensures failed { OnErr result (CallFails D.Device device.old device.new (IsReadOf sector (length buf.old))) }
{
    device.read(sector, buf)
}
