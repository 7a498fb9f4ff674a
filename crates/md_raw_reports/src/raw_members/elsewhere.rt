// Other places of a device where a superblock of its set may stand.
ghost use Rattle.std.specs.Prelude.{◌≡◌, ◌≤◌, ◌*◌};
ghost use Rattle.md_device.specs.Failing.{OnlyReadsFailed};
ghost use Rattle.md_members.specs.Reading.{CallFails};
ghost use Rattle.md_raw_reports.specs.RawMembers.Elsewhere.{FindsAt, FindsElsewhere, IsFoundInSector};

use crate::raw_members::read_parts::read_sectors;
use crate::super_fields::Found;
use md_device::Device;
use md_format::{u32_at, uuid_at};
use md_super::{MAGIC, MAJOR_VERSION};

// Where a superblock of version 1.1 stands.
const AT_START: u64 = 0;

// Where one of version 1.2 stands in a first partition, which starts at sector 63 or 2048.
const IN_OLD_PARTITION: u64 = 71;

const IN_PARTITION: u64 = 2056;

/// Looks for a superblock where one of version 1.1 stands, one of version 1.2 in a first partition, and one of version 1.0.
/// Each place is read once.
#[tactic(auto, using(md_device::proofs::Failing::fails_none, md_device::proofs::Failing::fails_then, md_device::proofs::Failing::fails_call))]
pub(crate) fn find_elsewhere<D: Device>(device: &mut D) -> [Found; 4]
    ensures kept { D.content device.new ≡ D.content device.old }
    ensures honest { D.honest device.new ≡ D.honest device.old }
    ensures counted { D.failures device.old ≤ D.failures device.new }
    ensures grown { OnlyReadsFailed (D.faults device.old) (D.faults device.new) }
    ensures finds { FindsElsewhere (D.content device.old) (D.honest device.old) (CallFails D.Device device.old device.new) result }
{
    let at_end = device.sectors().saturating_sub(16) / 8 * 8;
    let start = look_at(device, AT_START);
    let old_partition = look_at(device, IN_OLD_PARTITION);
    let partition = look_at(device, IN_PARTITION);
    let end = look_at(device, at_end);
    [start, old_partition, partition, end]
}

// What stands at a place.
#[tactic(auto, using(md_device::proofs::Failing::fails_none, md_device::proofs::Failing::fails_then, md_device::proofs::Failing::fails_call))]
fn look_at<D: Device>(device: &mut D, sector: u64) -> Found
    ensures kept { D.content device.new ≡ D.content device.old }
    ensures honest { D.honest device.new ≡ D.honest device.old }
    ensures counted { D.failures device.old ≤ D.failures device.new }
    ensures grown { OnlyReadsFailed (D.faults device.old) (D.faults device.new) }
    ensures finds { FindsAt (D.content device.old) (D.honest device.old) (CallFails D.Device device.old device.new) sector result }
{
    if sector >= device.sectors() {
        return Found::Nothing;
    }
    let mut bytes = [0; 512];
    match read_sectors(device, sector, &mut bytes) {
        Ok(()) => start_of_super(&bytes, sector),
        Err(_) => Found::Unreadable(sector),
    }
}

// Whether a sector starts a superblock of version 1.
fn start_of_super(bytes: &[u8; 512], sector: u64) -> Found
    ensures { IsFoundInSector bytes.now sector result }
{
    if u32_at(bytes, 0) == MAGIC && u32_at(bytes, 4) == MAJOR_VERSION {
        Found::Superblock(sector, uuid_at(bytes, 16))
    } else {
        Found::Nothing
    }
}
