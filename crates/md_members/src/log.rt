// The bad block log of a member.
ghost use Rattle.std.specs.Prelude.{◌≡◌, ◌≤◌, ◌+◌, ◌*◌, ◌/◌, ◌^◌, length, true};
ghost use Rattle.md_device.specs.Crashes.{LeavesMore};
ghost use Rattle.md_device.specs.Failing.{OnlyReadsFailed};
ghost use Rattle.md_members.specs.Areas.{AreAreasPlaced, has_bad_blocks};
ghost use Rattle.md_members.specs.Reading.{CallFails, GivesLog, LogStartsAt, UnlessReadFault};
ghost use Rattle.md_super.specs.Log.{has_bad_block_log};

use crate::fault::MemberFault;
use crate::super_read::read_sectors;
use md_badblocks::{BadSet, LogFault};
use md_device::Device;
use md_super::{SUPER_SECTOR, Superblock};
use std::alloc::Global;

// The most bytes of a log: 8 sectors.
const MOST_BYTES: usize = 4096;

/// Reads the log's area, once.
#[tactic(auto, using(md_device::proofs::Failing::fails_none, md_device::proofs::Failing::fails_then, md_device::proofs::Failing::fails_call))]
pub(crate) fn read_log<D: Device>(
    alloc: Global,
    device: &mut D,
    v: &Superblock,
) -> Result<BadSet, MemberFault>
    requires log { has_bad_block_log v.now ≡ true }
    requires placed { AreAreasPlaced (length (D.content device.old) / 512) v.now 1 }
    ensures kept { D.content device.new ≡ D.content device.old }
    ensures honest { D.honest device.new ≡ D.honest device.old }
    ensures counted { D.failures device.old ≤ D.failures device.new }
    ensures grown { OnlyReadsFailed (D.faults device.old) (D.faults device.new) }
    ensures unfailing { UnlessReadFault result (D.failures device.new ≡ D.failures device.old) }
    ensures within { D.honest device.old ≡ true → LeavesMore (D.crashes device.old) (D.crashes device.new) (λ left. left ≡ D.content device.old) }
    ensures reads { GivesLog (D.content device.old) (D.honest device.old) (CallFails D.Device device.old device.new) v.now result }
{
    let start = start_of_log(v, device.sectors());
    let mut buffer = [0; MOST_BYTES];
    let area = &mut buffer[..512 * v.bblog_size as usize];
    read_sectors(device, start, area)?;
    match BadSet::from_log(alloc, area, v.bblog_shift) {
        Ok(bad) => Ok(bad),
        Err(LogFault::Shift) => Err(MemberFault::Log(LogFault::Shift)),
        Err(LogFault::NoMemory) => Err(MemberFault::NoMemory),
    }
}

// The device's sector where the log starts.
fn start_of_log(v: &Superblock, sectors: u64) -> u64
    requires limit { sectors ≤ 2 ^ 54 }
    requires log { has_bad_block_log v.now ≡ true }
    requires placed { AreAreasPlaced sectors v.now 1 }
    ensures start { LogStartsAt v.now result }
    ensures room { result + v.now.bblog_size ≤ sectors }
    ensures short { v.now.bblog_size ≤ 8 }
{
    (SUPER_SECTOR as i64 + i64::from(v.bblog_offset)) as u64
}
