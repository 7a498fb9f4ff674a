// The parts of a member, each with the superblock that places it.
ghost use Rattle.std.specs.Prelude.{◌≡◌, ◌≤◌, IfErr, IfOk};
ghost use Rattle.md_members.specs.Reading.{CallFails};
ghost use Rattle.md_raw_reports.specs.RawMembers.Elsewhere.{FindsElsewhere};
ghost use Rattle.md_raw_reports.specs.RawMembers.Raw.{ReadsRawBitmap, ReadsFront, ReadsRawLog, RefusesRawBitmap, RefusesRawSuper, RefusesRawLog, TriesFront};

use crate::raw_bitmap::RawBitmap;
use crate::raw_members::elsewhere::find_elsewhere;
use crate::raw_members::fault::RawFault;
use crate::raw_members::read_parts::{RawLog, read_bitmap, read_log_area, read_super_bytes};
use crate::super_fields::Found;
use md_device::Device;

/// Reads sectors 8 to 15, whatever stands there, and then looks for a superblock where one of version 1.1 stands, one of
/// version 1.2 in a first partition, and one of version 1.0. The answer is also how many of the sectors could be read, from the
/// first on: all, the first alone, or none. Each of the other places is read once.
pub fn read_raw_super<D: Device>(
    device: &mut D,
    bytes: &mut [u8; 4096],
) -> Result<(u32, [Found; 4]), RawFault>
    ensures kept { D.content device.new ≡ D.content device.old }
    ensures honest { D.honest device.new ≡ D.honest device.old }
    ensures ok { IfOk result (λ it. ReadsFront (D.content device.old) (D.honest device.old)
        (CallFails D.Device device.old device.new) it.0 bytes.new) }
    ensures tried { IfOk result (λ it.
        TriesFront (D.honest device.old) (D.failures device.old) (D.failures device.new) it.0) }
    ensures finds { IfOk result (λ it. FindsElsewhere (D.content device.old) (D.honest device.old)
        (CallFails D.Device device.old device.new) it.1) }
    ensures refused { IfErr result (λ fault. RefusesRawSuper (D.content device.old) fault) }
{
    let read = read_super_bytes(device, bytes)?;
    Ok((read, find_elsewhere(device)))
}

/// Reads sectors 8 to 15, whatever stands there, and then the bitmap that they place, each sector of it once, as far as it can be
/// read: its first sector, and its marks. The answer is also how many of the superblock's sectors could be read.
pub fn read_raw_bitmap<D: Device>(
    device: &mut D,
    superblock: &mut [u8; 4096],
) -> Result<(u32, RawBitmap), RawFault>
    ensures kept { D.content device.new ≡ D.content device.old }
    ensures honest { D.honest device.new ≡ D.honest device.old }
    ensures ok { IfOk result (λ it. ReadsFront (D.content device.old) (D.honest device.old)
        (CallFails D.Device device.old device.new) it.0 superblock.new) }
    ensures tried { IfOk result (λ it.
        TriesFront (D.honest device.old) (D.failures device.old) (D.failures device.new) it.0) }
    ensures bitmap { IfOk result (λ it. ReadsRawBitmap (D.content device.old) (D.honest device.old)
        (CallFails D.Device device.old device.new) it.0 superblock.new it.1) }
    ensures refused { IfErr result (λ fault. RefusesRawBitmap (D.content device.old) (D.honest device.old)
        (CallFails D.Device device.old device.new) fault) }
{
    let read = read_super_bytes(device, superblock)?;
    if read == 0 {
        return Ok((read, RawBitmap::Unplaced));
    }
    let bitmap = read_bitmap(device, superblock)?;
    Ok((read, bitmap))
}

/// Reads sectors 8 to 15, whatever stands there, and then the bad block log that they place, once, into the front of `bytes`.
/// The answer is also how many of the superblock's sectors could be read.
pub fn read_raw_log<D: Device>(
    device: &mut D,
    superblock: &mut [u8; 4096],
    bytes: &mut [u8; 4096],
) -> Result<(u32, RawLog), RawFault>
    ensures kept { D.content device.new ≡ D.content device.old }
    ensures honest { D.honest device.new ≡ D.honest device.old }
    ensures ok { IfOk result (λ it. ReadsFront (D.content device.old) (D.honest device.old)
        (CallFails D.Device device.old device.new) it.0 superblock.new) }
    ensures tried { IfOk result (λ it.
        TriesFront (D.honest device.old) (D.failures device.old) (D.failures device.new) it.0) }
    ensures few { IfOk result (λ it. it.1.len ≤ 4096) }
    ensures log { IfOk result (λ it. ReadsRawLog (D.content device.old) (D.honest device.old)
        (CallFails D.Device device.old device.new) it.0 superblock.new bytes.new it.1) }
    ensures refused { IfErr result (λ fault. RefusesRawLog (D.content device.old) (D.honest device.old)
        (CallFails D.Device device.old device.new) fault) }
{
    let read = read_super_bytes(device, superblock)?;
    if read == 0 {
        return Ok((read, RawLog { len: 0, lost: None }));
    }
    let log = read_log_area(device, superblock, bytes)?;
    Ok((read, log))
}
