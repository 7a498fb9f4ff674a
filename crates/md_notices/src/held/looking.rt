// What each of several devices holds.
ghost use Rattle.std.specs.Prelude.{◌≡◌, IfErr, IfOk, length, map};
ghost use Rattle.md_state.specs.View.{disk_of};
ghost use Rattle.md_notices.specs.Held.Holding.{LooksAtEach};

use crate::held::held::{Held, held_on};
use md_device::Device;
use std::alloc::{AllocError, Global};

/// What each of the devices holds, in their order. They are only read, and `AllocError` comes before any of them is.
pub fn held_on_each<D: Device>(alloc: Global, devices: &mut [D]) -> Result<Vec<Held>, AllocError>
    ensures as_many { length devices.new ≡ length devices.old }
    ensures looks { IfOk result (λ held.
        LooksAtEach (map (disk_of D.Device) devices.old) (map (disk_of D.Device) devices.new) held.items) }
    ensures untouched { IfErr result (λ _. devices.new ≡ devices.old) }
{
    let mut held = Vec::with_capacity(alloc, devices.len())?;
    for place in 0..devices.len() {
        let one = held_on(alloc, &mut devices[place]);
        held.push_reserved(one);
    }
    Ok(held)
}
