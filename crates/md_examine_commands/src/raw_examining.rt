// What stands in one image is shown, though it may be refused.
ghost use Rattle.std.specs.Prelude.{◌≡◌};
ghost use Rattle.md_members.specs.Reading.{CallFails};
ghost use Rattle.md_raw_reports.specs.RawMembers.Raw.{RefusesRawBitmap, RefusesRawSuper, RefusesRawLog};
ghost use Rattle.md_examine_commands.specs.Examining.{IsRaw, Reports, ShowsBitmap, ShowsLog, ShowsSuper, of_raw};

use crate::reports::{put_raw_badblocks, put_raw_bitmap, put_raw_superblock};
use md_device::Device;
use md_members::MemberFault;
use md_raw_reports::{RawFault, read_raw_bitmap, read_raw_log, read_raw_super};
use md_refusals::CommandFault;
use md_streams::Sink;

// Why the bytes of a part are not read, as a command says it.
fn refusal(fault: RawFault) -> CommandFault
    ensures { result ≡ of_raw fault }
{
    match fault {
        RawFault::TooShort => CommandFault::Member(MemberFault::TooShort),
        RawFault::NoBitmap => CommandFault::NoBitmap,
        RawFault::Region => CommandFault::Member(MemberFault::Region),
    }
}

/// Shows what stands where the superblock does, and where else one is.
pub(crate) fn show_raw_superblock<D: Device, S: Sink>(
    json: bool,
    device: &mut D,
    out: &mut S,
) -> Result<(), CommandFault>
    ensures kept { D.content device.new ≡ D.content device.old }
    ensures honest { D.honest device.new ≡ D.honest device.old }
    ensures gives { Reports S.Sink (ShowsSuper (D.content device.old) (D.honest device.old)
        (CallFails D.Device device.old device.new) json) (IsRaw (RefusesRawSuper (D.content device.old)))
        out.old out.new result }
{
    let mut bytes = [0; 4096];
    match read_raw_super(device, &mut bytes) {
        Ok(parts) => {
            let found = parts.1;
            put_raw_superblock(out, json, parts.0, &bytes, &found)
        }
        Err(fault) => Err(refusal(fault)),
    }
}

/// Shows what stands where the superblock places the bitmap.
pub(crate) fn show_raw_bitmap<D: Device, S: Sink>(
    json: bool,
    device: &mut D,
    out: &mut S,
) -> Result<(), CommandFault>
    ensures kept { D.content device.new ≡ D.content device.old }
    ensures honest { D.honest device.new ≡ D.honest device.old }
    ensures gives { Reports S.Sink (ShowsBitmap (D.content device.old) (D.honest device.old)
        (CallFails D.Device device.old device.new) json) (IsRaw (RefusesRawBitmap (D.content device.old)
        (D.honest device.old) (CallFails D.Device device.old device.new))) out.old out.new result }
{
    let mut superblock = [0; 4096];
    match read_raw_bitmap(device, &mut superblock) {
        Ok((read, bitmap)) => put_raw_bitmap(out, json, read, &superblock, &bitmap),
        Err(fault) => Err(refusal(fault)),
    }
}

/// Shows what stands where the superblock places the bad block log.
pub(crate) fn show_raw_badblocks<D: Device, S: Sink>(
    json: bool,
    device: &mut D,
    out: &mut S,
) -> Result<(), CommandFault>
    ensures kept { D.content device.new ≡ D.content device.old }
    ensures honest { D.honest device.new ≡ D.honest device.old }
    ensures gives { Reports S.Sink (ShowsLog (D.content device.old) (D.honest device.old)
        (CallFails D.Device device.old device.new) json) (IsRaw (RefusesRawLog (D.content device.old)
        (D.honest device.old) (CallFails D.Device device.old device.new))) out.old out.new result }
{
    let mut superblock = [0; 4096];
    let mut area = [0; 4096];
    match read_raw_log(device, &mut superblock, &mut area) {
        Ok((read, log)) => {
            put_raw_badblocks(out, json, read, &superblock, log.lost, &area[..log.len])
        }
        Err(fault) => Err(refusal(fault)),
    }
}
