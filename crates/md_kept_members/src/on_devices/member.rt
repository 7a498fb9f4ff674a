// All of a member but its data, the superblock last.
ghost use Rattle.std.specs.Prelude.{ℕ, ◌≤ℤ◌, ◌+ℤ◌, pos};
ghost use Rattle.md_super.specs.Merge.{merged};
ghost use Rattle.md_members.specs.Reading.{BitmapStartsAt};
ghost use Rattle.md_members.specs.DeviceWrites.Writes.{MakesWrites};
ghost use Rattle.md_kept_members.specs.OnDevices.Storing.{IsStorable, KeepsDataOn, member_writes};
ghost use Rattle.md_kept_members.specs.OnDevices.Superblocks.{IsReadable};

use crate::member::Member;
use crate::on_devices::log::store_log;
use crate::on_devices::superblock::block_for;
use md_bitmap::BitmapHeader;
use md_device::{Device, WriteFault};
use md_members::{put, store_bitmap};
use md_super::{SUPER_SECTOR, Superblock};

/// Writes all of a member but its data on its device: its marks with this header, its log, and its
/// superblock beside these fields of the array. The superblock's bytes are made first, so that they are
/// known to be readable whichever write fails.
pub fn store_member<D: Device>(
    device: &mut D,
    header: &BitmapHeader,
    shared: &Superblock,
    member: &Member,
) -> Result<(), WriteFault>
    requires { IsStorable member.now (D.content device.old) }
    ensures writes { (start : ℕ) × BitmapStartsAt member.now.superblock start
        × MakesWrites D.Device (member_writes start header.now shared.now member.now) device.old device.new result }
    ensures data { KeepsDataOn member.now (D.content device.old) (D.content device.new) }
    ensures readable { IsReadable (merged shared.now member.now.superblock) }
{
    let block = block_for(shared, &member.superblock);
    let start = bitmap_start(&member.superblock);
    store_bitmap(device, start, header, &member.stored)?;
    store_log(device, member)?;
    put(device, SUPER_SECTOR, &block)
}

/// The device's sector where the bitmap starts.
pub fn bitmap_start(v: &Superblock) -> u32
    requires { pos 0 ≤ℤ (pos 8 +ℤ v.now.bitmap_offset) }
    ensures { BitmapStartsAt v.now result }
{
    (SUPER_SECTOR as i64 + i64::from(v.bitmap_offset)) as u32
}
