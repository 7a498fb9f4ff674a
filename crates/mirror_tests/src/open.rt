// A mirror of devices.
ghost use Rattle.std.specs.Prelude.{IfOk};
ghost use Rattle.md_array.specs.Consistency.{IsConsistent};

use md_array::Mirror;
use md_device::Device;
use std::alloc::Global;
use std::test::Fail;

// The mirror that the devices make. The test fails where they make none.
pub(crate) fn open<D: Device + Drop>(alloc: Global, devices: Vec<D>) -> Result<Mirror<D>, Fail>
    ensures { IfOk result (λ m. IsConsistent m) }
{
    match Mirror::open(alloc, devices) {
        Ok(mirror) => Ok(mirror),
        Err((_, fault)) => Err(Fail::from(fault)),
    }
}
