// A member's bad block log.
ghost use Rattle.std.specs.Prelude.{◌≡◌, ◌*◌, ◌≤ℤ◌, ◌+ℤ◌, pos, true, false};
ghost use Rattle.md_badblocks.specs.Runs.{IsCanonical};
ghost use Rattle.md_device.specs.Splice.{SameOutside};
ghost use Rattle.md_super.specs.Log.{has_bad_block_log};
ghost use Rattle.md_members.specs.Reading.{LogStartsAt};
ghost use Rattle.md_members.specs.DeviceWrites.Writes.{MakesWrites};
ghost use Rattle.md_kept_members.specs.OnDevices.Storing.{IsStorable, KeepsDataOn, log_writes, sector_from_super};

use crate::member::Member;
use md_device::{Device, WriteFault};
use md_members::put;
use md_super::{SUPER_SECTOR, Superblock};

/// Writes a member's list in the log on its device, where its superblock names one.
pub fn store_log<D: Device>(device: &mut D, member: &Member) -> Result<(), WriteFault>
    requires { IsStorable member.now (D.content device.old) }
    ensures canonical { IsCanonical member.now.bad }
    ensures writes { MakesWrites D.Device (log_writes member.now.superblock member.now.bad) device.old device.new result }
    ensures outside { has_bad_block_log member.now.superblock ≡ true → SameOutside (512 * sector_from_super member.now.superblock.bblog_offset) (512 * member.now.superblock.bblog_size) (D.content device.old) (D.content device.new) }
    ensures untouched { has_bad_block_log member.now.superblock ≡ false → device.new ≡ device.old }
    ensures data { KeepsDataOn member.now (D.content device.old) (D.content device.new) }
{
    // For the proof: the list is canonical.
    let _runs = member.bad.runs();
    let own = &member.superblock;
    if !own.has_bad_block_log() {
        return Ok(());
    }
    let mut buffer = [0; 4096];
    let log = &mut buffer[..512 * own.bblog_size as usize];
    let _ = member.bad.to_log(log);
    put(device, log_start(own), log)
}

// The device's sector where the log starts.
fn log_start(own: &Superblock) -> u64
    requires { pos 0 ≤ℤ (pos 8 +ℤ own.now.bblog_offset) }
    ensures { LogStartsAt own.now result }
{
    (SUPER_SECTOR as i64 + i64::from(own.bblog_offset)) as u64
}
