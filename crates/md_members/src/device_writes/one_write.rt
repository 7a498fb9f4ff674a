// One write.
ghost use Rattle.std.specs.Prelude.{◌≡◌, ◌≤◌, ◌*◌, ◌+◌, ◌%◌, [], ◌∷◌, length};
ghost use Rattle.md_device.specs.Splice.{SameOutside};
ghost use Rattle.md_members.specs.DeviceWrites.Writes.{MakesWrites};

use md_device::{Device, WriteFault};

/// Makes one write, of whole sectors that lie on the device.
pub fn put<D: Device>(device: &mut D, sector: u64, bytes: &[u8]) -> Result<(), WriteFault>
    requires whole { length bytes.now % 512 ≡ 0 }
    requires within { 512 * sector + length bytes.now ≤ length (D.content device.old) }
    ensures writes { MakesWrites D.Device (record { sector = sector; bytes = bytes.now } ∷ []) device.old device.new result }
    ensures outside { SameOutside (512 * sector) (length bytes.now) (D.content device.old) (D.content device.new) }
{
    device.write(sector, bytes)
}
