// Reading sectors of the array from a member.
ghost use Rattle.std.specs.Prelude.{◌≡◌, ◌+◌, ◌*◌, ◌/◌, ◌%◌, ◌<◌, ◌≤◌, ◌++◌, ◌∷◌, [], MatchResult, Some, length, map, slice_get, true};
ghost use Rattle.md_device.specs.Device.{held};
ghost use Rattle.md_device.specs.Failing.{failed_read};
ghost use Rattle.md_inflight.specs.Requests.Pending.{PendingView};
ghost use Rattle.md_state.specs.DeviceChanges.{IsUntouched};
ghost use Rattle.md_state.specs.DiskWrites.{AtDevice};
ghost use Rattle.md_state.specs.Steps.ReadData.{FailsToRead, ReadsData};
ghost use Rattle.md_state.specs.Requests.{IsPending};
ghost use Rattle.md_state.specs.View.{Disk, disk_of};
ghost use Rattle.md_array.specs.Consistency.{IsConsistent};

use crate::mirror::Mirror;
use md_device::{Device, ReadFault};
use md_state::sector_on;

impl<D: Device + Drop> Mirror<D> {
    /// Fills `buf` with what member k holds from this sector of the array on, in one read of its device.
    /// After a `ReadFault` any bytes may stand in `buf`. It changes nothing of the array, which may be
    /// halted, and takes no memory; whether the member is in sync and lists none of the sectors is the
    /// caller's to see.
    pub fn read_data(&mut self, k: usize, sector: u64, buf: &mut [u8]) -> Result<(), ReadFault>
        requires within { k < length self.old.array.members }
        requires sound { IsConsistent self.old }
        requires whole { length buf.old % 512 ≡ 0 }
        requires inside { sector + length buf.old / 512 ≤ self.old.array.chunks.size }
        ensures gives { MatchResult result (λ _. ReadsData k sector buf.new self.old self.new) (λ _. FailsToRead k sector (length buf.old) self.old self.new) }
        ensures sound { IsConsistent self.new }
        ensures pending { (p : PendingView) → IsPending self.old.array p → IsPending self.new.array p }
    {
        let start = self.own(k).data_offset;
        read_from(&mut self.devices, k, start, sector, buf)
    }
}

// Reads from the data area of device k, from this sector of the area on.
fn read_from<D: Device>(
    devices: &mut [D],
    k: usize,
    data_offset: u64,
    sector: u64,
    buf: &mut [u8],
) -> Result<(), ReadFault>
    requires within { k < length devices.old }
    requires whole { length buf.old % 512 ≡ 0 }
    requires room { (d : Disk) → slice_get (map (disk_of D.Device) devices.old) k ≡ Some d → 512 * (data_offset + sector) + length buf.old ≤ length d.content }
    ensures untouched { IsUntouched (map (disk_of D.Device) devices.old) (map (disk_of D.Device) devices.new) }
    ensures read { MatchResult result
        (λ _. (d : Disk) → slice_get (map (disk_of D.Device) devices.old) k ≡ Some d → d.honest ≡ true → held d.content (data_offset + sector) (length buf.new) ≡ buf.new)
        (λ _. AtDevice k (map (disk_of D.Device) devices.old) (map (disk_of D.Device) devices.new) (λ d e. (d.honest ≡ true → d.failures < e.failures) × (e.faults ≡ d.faults ++ failed_read (data_offset + sector) (length buf.old) ∷ []))) }
{
    let device = &mut devices[k];
    let start = sector_on(device, data_offset, sector);
    device.read(start, buf)
}
