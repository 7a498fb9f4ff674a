// Writing to the data area of a member's device: every byte of the array that a mirror stores goes through here.
ghost use Rattle.std.specs.Prelude.{◌≡◌, ◌+◌, ◌*◌, ◌%◌, ◌<◌, ◌≤◌, Some, MatchResult, length, map, slice_get};
ghost use Rattle.md_state.specs.DiskWrites.{IsFailed, IsWritten};
ghost use Rattle.md_state.specs.View.{Disk, disk_of};

use md_device::{Device, WriteFault};
use md_members::put;

/// Writes to the data area of device k, from this sector of the area on.
pub fn put_on<D: Device>(
    devices: &mut [D],
    k: usize,
    data_offset: u64,
    sector: u64,
    bytes: &[u8],
) -> Result<(), WriteFault>
    requires within { k < length devices.old }
    requires whole { length bytes.now % 512 ≡ 0 }
    requires room { (d : Disk) → slice_get (map (disk_of D.Device) devices.old) k ≡ Some d → 512 * (data_offset + sector) + length bytes.now ≤ length d.content }
    ensures { MatchResult result (λ _. IsWritten k (record { sector = data_offset + sector; bytes = bytes.now }) (map (disk_of D.Device) devices.old) (map (disk_of D.Device) devices.new))
        (λ _. IsFailed k (record { sector = data_offset + sector; bytes = bytes.now }) (map (disk_of D.Device) devices.old) (map (disk_of D.Device) devices.new)) }
{
    let device = &mut devices[k];
    let start = sector_on(device, data_offset, sector);
    put(device, start, bytes)
}

/// The sector of the device, at most its end, so that the sum fits.
pub fn sector_on<D: Device>(device: &D, data_offset: u64, sector: u64) -> u64
    requires { 512 * (data_offset + sector) ≤ length (D.content device.now) }
    ensures { result ≡ data_offset + sector }
{
    let end = device.sectors();
    prove!(data_offset <= end);
    data_offset + sector
}
