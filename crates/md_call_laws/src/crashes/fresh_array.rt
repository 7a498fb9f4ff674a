//! A resync in a life that is sure to be one: what the laws of this crate ask can be met.
ghost use Rattle.std.specs.Prelude.{IfSome, map};
ghost use Rattle.md_state.specs.View.{disk_of};
ghost use Rattle.md_array.specs.Worlds.{AreHonest};
ghost use Rattle.md_laws.specs.Fresh.{AreFresh};
ghost use Rattle.md_call_laws.specs.Crashes.Agreement.{IsAgreed};

use md_array::Mirror;
use md_device::Device;
use md_resync::resync;
use std::alloc::Global;

/// Opens the devices of a new array, and resynchronises it: whatever stood in their data, the members in sync then hold the same
/// in each sector that neither device lists. `None` where one of the two is refused.
pub fn fresh_agreement<D: Device + Drop>(alloc: Global, devices: Vec<D>) -> Option<Mirror<D>>
    ensures agreed { AreHonest (map (disk_of D.Device) devices.items) → AreFresh (map (disk_of D.Device) devices.items) → IfSome result IsAgreed }
{
    let mut mirror = match Mirror::open(alloc, devices) {
        Ok(mirror) => mirror,
        Err(_) => return None,
    };
    match resync(alloc, &mut mirror) {
        Ok(()) => Some(mirror),
        Err(_) => None,
    }
}
