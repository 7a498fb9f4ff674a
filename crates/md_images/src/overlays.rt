// Overlays over devices that are only looked at.
ghost use Rattle.std.specs.Prelude.{◌≡◌, IfOk, map};
ghost use Rattle.md_images.specs.Overlays.{overlay_over};

use crate::seen::Seen;
use crate::shared_read::SharedRead;
use md_device::OverlayDevice;
use std::alloc::{AllocError, Global};

// An overlay over a device that is only looked at. Nothing is written over it yet.
fn overlay_over<D: SharedRead>(alloc: Global, device: &D) -> OverlayDevice<Seen<'_, D>>
    ensures { result ≡ overlay_over D.content device.now }
{
    OverlayDevice::new(alloc, Seen::new(device))
}

/// Overlays over devices, in their order. The devices are borrowed: what is written to an overlay is kept in
/// memory, and the devices stay as they are, whatever is done to the overlays.
pub fn lay_over<'a, D: SharedRead>(
    alloc: Global,
    devices: &'a [D],
) -> Result<Vec<OverlayDevice<Seen<'a, D>>>, AllocError>
    ensures { IfOk result (λ overlays. overlays.items ≡ map (λ d. overlay_over D.content d) devices.now) }
{
    devices
        .iter()
        .map(|device| overlay_over(alloc, device))
        .collect(alloc)
}
