//! A life of a mirror that is sure to be one.
ghost use Rattle.std.specs.Prelude.{◌≡◌, ◌<◌, ◌%◌, IfSome, IsTrue, length, map};
ghost use Rattle.md_state.specs.View.{disk_of};
ghost use Rattle.md_array.specs.Consistency.{IsConsistent};
ghost use Rattle.md_array.specs.Worlds.{AreHonest};
ghost use Rattle.md_laws.specs.SmallLife.{HasSmallLife, RunsTwice};

use md_array::Mirror;
use md_device::Device;
use std::alloc::Global;

/// Opens the device of a lone member, begins a request, stores the superblock, and opens the device again:
/// a life as `laws::every_run` speaks of them. `None` where one of these is refused, where the members are
/// more than one, or where the superblock's event count has not risen.
pub fn small_life<D: Device + Drop>(
    alloc: Global,
    devices: Vec<D>,
    bytes: &[u8],
) -> Option<Mirror<D>>
    requires whole { length bytes.now % 512 ≡ 0 }
    ensures life { AreHonest (map (disk_of D.Device) devices.items) → IfSome result (HasSmallLife (map (disk_of D.Device) devices.items)) }
{
    let mut mirror = match Mirror::open(alloc, devices) {
        Ok(mirror) => mirror,
        Err(_) => return None,
    };
    if mirror.members() != 1 {
        return None;
    }
    let opened = mirror.events();
    if !runs_twice(&mut mirror, bytes) {
        return None;
    }
    let next = match Mirror::open(alloc, mirror.into_devices()) {
        Ok(next) => next,
        Err(_) => return None,
    };
    if next.events() <= opened {
        return None;
    }
    Some(next)
}

// Begins a request, and stores the superblock of member 0.
fn runs_twice<D: Device + Drop>(mirror: &mut Mirror<D>, bytes: &[u8]) -> bool
    requires some { 0 < length mirror.old.array.members }
    requires whole { length bytes.now % 512 ≡ 0 }
    requires sound { IsConsistent mirror.old }
    ensures { IsTrue result → AreHonest mirror.old.disks → RunsTwice mirror.old mirror.new }
{
    let pending = match mirror.begin(0, bytes) {
        Ok(pending) => pending,
        Err(_) => return false,
    };
    match mirror.record(0) {
        Ok(()) => true,
        Err(_) => false,
    }
}
