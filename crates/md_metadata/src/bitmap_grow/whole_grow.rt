// Growing an array by a bitmap.
ghost use Rattle.std.specs.Prelude.{◌≡◌, ◌⊎◌, map, length, MatchResult};
ghost use Rattle.md_state.specs.View.{disk_of};
ghost use Rattle.md_state.specs.DeviceChanges.{IsUntouched};
ghost use Rattle.md_metadata.specs.Grow.Growing.{Grows, FindsGrowth, RefusesMembers, RefusesGrowReading, RefusesToGrow};

use crate::bitmap_grow::fault::GrowFault;
use crate::bitmap_grow::growth::{Growth, growth_of};
use crate::bitmap_grow::store::store_each;
use md_array::read_members;
use md_device::Device;
use std::alloc::Global;

/// Puts a bitmap with chunks of so many bytes on each member of the array that the devices make, which lack one. All chunks are
/// marked, or none where the array was stopped clean. The bitmap is written to all devices first, its header last, and then the
/// superblocks. A run that was stopped is completed by another. The fault is the first in the order of `GrowFault`; nothing is
/// written unless it is `MetadataFault`.
pub fn grow<D: Device>(alloc: Global, devices: &mut [D], chunk_bytes: u32) -> Result<(), GrowFault>
    ensures as_many { length devices.new ≡ length devices.old }
    ensures gives { MatchResult result (λ _. Grows chunk_bytes (map (disk_of D.Device) devices.old) (map (disk_of D.Device) devices.new))
        (RefusesToGrow chunk_bytes (map (disk_of D.Device) devices.old) (map (disk_of D.Device) devices.new)) }
{
    let growth = find_growth(alloc, devices, chunk_bytes)?;
    store_each(devices, &growth)
}

// What the members get.
fn find_growth<D: Device>(
    alloc: Global,
    devices: &mut [D],
    chunk_bytes: u32,
) -> Result<Growth, GrowFault>
    ensures as_many { length devices.new ≡ length devices.old }
    ensures untouched { IsUntouched (map (disk_of D.Device) devices.old) (map (disk_of D.Device) devices.new) }
    ensures gives { MatchResult result (FindsGrowth chunk_bytes (map (disk_of D.Device) devices.old) (map (disk_of D.Device) devices.new))
        (λ f. RefusesGrowReading (map (disk_of D.Device) devices.old) (map (disk_of D.Device) devices.new) f ⊎ RefusesMembers chunk_bytes (map (disk_of D.Device) devices.old) f) }
{
    let infos = read_members(alloc, devices)?;
    growth_of(alloc, infos, chunk_bytes)
}
