// A member's superblock.
ghost use Rattle.std.specs.Prelude.{◌≡◌, ◌<◌, ◌≤◌, ◌*◌, [], ◌∷◌, length, slice_get, Some};
ghost use Rattle.md_device.specs.Splice.{SameOutside};
ghost use Rattle.md_super.specs.Merge.{merged};
ghost use Rattle.md_members.specs.Members.{sectors_of_device};
ghost use Rattle.md_members.specs.DeviceWrites.Writes.{MakesWrites};
ghost use Rattle.md_kept_members.specs.OnDevices.OneOfMany.{WritesAlone};
ghost use Rattle.md_kept_members.specs.OnDevices.Superblocks.{IsReadable, own_write, write_of};

use crate::member::Member;
use md_device::{Device, WriteFault};
use md_super::{SUPER_SECTOR, Superblock, encode_member};

/// Writes a member's superblock on its device: these fields of the array, and its own.
pub fn store_superblock<D: Device>(
    device: &mut D,
    shared: &Superblock,
    member: &Member,
) -> Result<(), WriteFault>
    requires { 16 ≤ sectors_of_device (D.content device.old) }
    ensures writes { MakesWrites D.Device (write_of shared.now member.now ∷ []) device.old device.new result }
    ensures outside { SameOutside (512 * 8) (length (write_of shared.now member.now).bytes) (D.content device.old) (D.content device.new) }
    ensures readable { IsReadable (merged shared.now member.now.superblock) }
{
    let block = block_for(shared, &member.superblock);
    device.write(SUPER_SECTOR, &block)
}

/// Writes a superblock with these fields of the array and these of its own on device `k` of several. No other one is
/// used: nothing tells of a device before its own superblock does.
pub fn store_fields_on<D: Device>(
    devices: &mut [D],
    k: usize,
    shared: &Superblock,
    own: &Superblock,
) -> Result<(), WriteFault>
    requires within { k < length devices.old }
    requires long { (d : D) → slice_get devices.old k ≡ Some d → 16 ≤ sectors_of_device (D.content d) }
    ensures writes { WritesAlone D.Device k (own_write shared.now own.now) devices.old devices.new result }
    ensures readable { IsReadable (merged shared.now own.now) }
{
    let block = block_for(shared, own);
    devices[k].write(SUPER_SECTOR, &block)
}

/// The bytes that are written for it.
pub(crate) fn block_for(shared: &Superblock, own: &Superblock) -> [u8; 4096]
    ensures bytes { result ≡ (own_write shared.now own.now).bytes }
    ensures readable { IsReadable (merged shared.now own.now) }
{
    let mut block = [0; 4096];
    encode_member(shared, own, &mut block);
    block
}
