// Laying a new member out on its device.
ghost use Rattle.std.specs.Prelude.{◌≡◌, ◌≤◌, ◌*◌, length, true, OnOk};
ghost use Rattle.md_device.specs.Crashes.{LeavesMore};
ghost use Rattle.md_members.specs.DeviceWrites.Writes.{MakesWrites};
ghost use Rattle.md_create.specs.Layout.{IsHalfLaidOut, IsLaidOutAs, KeepsOthers, writes_of};
ghost use Rattle.md_create.specs.ReadBack.{IsReadBack};

use crate::params::NewMember;
use crate::places::{BITMAP_SECTOR, LOG_SECTOR};
use md_device::{Device, WriteFault};
use md_members::{put, store_bitmap};
use md_super::SUPER_SECTOR;

/// Writes a member's bitmap and superblock to a device of at least 2048 sectors, and an empty bad
/// block log, in at most six writes. The superblock's place is overwritten with zeros first and gets
/// the superblock last, so that no crash leaves an old superblock over an emptied log. It takes no memory.
pub fn lay_out<D: Device>(device: &mut D, member: &NewMember) -> Result<(), WriteFault>
    requires { 512 * 2048 ≤ length (D.content device.old) }
    ensures writes { MakesWrites D.Device (writes_of member.now) device.old device.new result }
    ensures outside { KeepsOthers member.now (D.content device.old) (D.content device.new) }
    ensures crashes { OnOk result (D.honest device.old ≡ true → LeavesMore (D.crashes device.old) (D.crashes device.new) (IsHalfLaidOut (D.content device.old) member.now)) }
    ensures readable { OnOk result (IsReadBack member.now.superblock) }
    ensures laid_out { OnOk result (D.honest device.old ≡ true → IsLaidOutAs (D.content device.old) member.now (D.content device.new)) }
{
    put(device, SUPER_SECTOR, &[0; 4096])?;
    put(device, LOG_SECTOR, &[0xff; 4096])?;
    store_bitmap(device, BITMAP_SECTOR, &member.header, &member.marks)?;
    let mut block = [0; 4096];
    member.superblock.encode(&mut block);
    put(device, SUPER_SECTOR, &block)
}
