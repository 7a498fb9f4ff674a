// The flag by which the bitmap of a device that comes back is not believed: BITMAP_STALE of md-bitmap.h.
ghost use Rattle.std.specs.Prelude.{◌≡◌, ◌≤◌, ◌<◌, ◌+◌, ◌*◌, ◌%◌, [], ◌∷◌, length, MatchResult, true};
ghost use Rattle.md_format.specs.Fields.{number_at};
ghost use Rattle.md_members.specs.Reading.{IsRead};
ghost use Rattle.md_state.specs.DiskWrites.{IsFailed, IsWritten};
ghost use Rattle.md_state.specs.View.{disk_of};
ghost use Rattle.md_array.specs.Steps.ReAdd.{IsOnlyRead};
ghost use Rattle.md_metadata.specs.ComingBack.{first_write, stale_sector};

use md_device::{Device, ReadFault, WriteFault};
use md_format::{put_u32, u32_at};
use md_members::put;

/// The bytes of a sector.
pub(super) const SECTOR_BYTES: usize = 512;

// Where a header has its state.
const STATE_PLACE: usize = 48;

const BITMAP_STALE: u32 = 2;

/// The first sector of a bitmap that starts here, by one read.
pub(super) fn read_first<D: Device>(
    device: &mut D,
    start: u32,
) -> Result<[u8; SECTOR_BYTES], ReadFault>
    requires { 512 * start + 512 ≤ length (D.content device.old) }
    ensures only_read { IsOnlyRead (disk_of D.Device device.old) (disk_of D.Device device.new) }
    ensures reads { MatchResult result
        (λ sector. IsRead (D.content device.old) (D.honest device.old) start 512 sector)
        (λ _. D.honest device.old ≡ true → D.failures device.old < D.failures device.new) }
{
    let mut sector = [0; SECTOR_BYTES];
    read_at(device, u64::from(start), &mut sector)?;
    Ok(sector)
}

// Fills `buf` with the bytes from `sector` on, by one read.
fn read_at<D: Device>(device: &mut D, sector: u64, buf: &mut [u8]) -> Result<(), ReadFault>
    requires whole { length buf.old % 512 ≡ 0 }
    requires within { 512 * sector + length buf.old ≤ length (D.content device.old) }
    ensures only_read { IsOnlyRead (disk_of D.Device device.old) (disk_of D.Device device.new) }
    ensures reads { MatchResult result
        (λ _. IsRead (D.content device.old) (D.honest device.old) sector (length buf.old) buf.new)
        (λ _. D.honest device.old ≡ true → D.failures device.old < D.failures device.new) }
{
    device.read(sector, buf)
}

/// A bitmap's first sector with the flag in the state of its header.
pub(super) fn with_stale_flag(sector: &[u8; SECTOR_BYTES]) -> [u8; SECTOR_BYTES]
    ensures bytes { result ≡ stale_sector sector.now }
    ensures flagged { 0 < number_at 4 48 result }
{
    let mut flagged = *sector;
    put_u32(
        &mut flagged,
        STATE_PLACE,
        u32_at(sector, STATE_PLACE) | BITMAP_STALE,
    );
    flagged
}

/// Writes the first sector of a bitmap that starts here.
pub(super) fn write_first<D: Device>(
    device: &mut D,
    start: u32,
    sector: &[u8; SECTOR_BYTES],
) -> Result<(), WriteFault>
    requires { 512 * start + 512 ≤ length (D.content device.old) }
    ensures { MatchResult result
        (λ _. IsWritten 0 (first_write start sector.now)
        (disk_of D.Device device.old ∷ []) (disk_of D.Device device.new ∷ []))
        (λ _. IsFailed 0 (first_write start sector.now)
        (disk_of D.Device device.old ∷ []) (disk_of D.Device device.new ∷ [])) }
{
    put(device, u64::from(start), sector)
}
