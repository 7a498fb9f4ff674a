// Devices that crash together at a write that their fuse counts.
ghost use Rattle.std.specs.Prelude.{◌≡◌, IfOk, length};

use crate::checks::{holds, same};
use crate::crashes::run::Crashing;
use md_device::{CrashDevice, Device, Fuse, MemDevice};
use std::alloc::Global;
use std::process::Abort;
use std::test::Fail;

// Of four sectors, of which the last two are data.
fn device(alloc: Global, fuse: &Fuse) -> Result<Crashing, Fail>
    ensures { IfOk result (λ d. length d.inner ≡ 2048) }
{
    let inner = MemDevice::new(alloc, 4)?;
    Ok(CrashDevice::new(inner, fuse.share()?, 2))
}

// Fills the data with a byte. Answers whether that was written.
fn fill(device: &mut Crashing, byte: u8) -> bool
    requires { length device.old.inner ≡ 2048 }
    ensures { length device.new.inner ≡ 2048 }
{
    device.write(2, &[byte; 1024]).is_ok()
}

// Fills the two sectors before the data with a byte. Answers whether that was written.
fn fill_first(device: &mut Crashing, byte: u8) -> bool
    requires { length device.old.inner ≡ 2048 }
    ensures { length device.new.inner ≡ 2048 }
{
    device.write(0, &[byte; 1024]).is_ok()
}

// The devices hold these bytes, one a sector.
fn expect(rt: &impl Abort, device: Crashing, wanted: [u8; 4]) {
    let image = device.into_inner();
    for (sector, byte) in wanted.iter().enumerate() {
        let found = image.bytes().get(512 * sector..512 * sector + 512);
        holds(rt, &sector, found == Some([*byte; 512].as_slice()));
    }
    drop(image);
}

// Two writes pass. The third leaves the first half of its data, and each later one nothing.
#[test]
fn data_are_torn(rt: HostRuntime) -> Result<(), Fail> {
    let alloc = rt.alloc();
    let fuse = Fuse::new(alloc, 2)?;
    let mut first = device(alloc, &fuse)?;
    let mut second = device(alloc, &fuse)?;
    let passed = (fill(&mut first, 1), fill(&mut second, 2));
    same(&rt, &"those that pass", passed, (true, true));
    let failed = (fill(&mut second, 3), fill(&mut first, 4));
    same(&rt, &"those that fail", failed, (false, false));
    expect(&rt, first, [0, 0, 1, 1]);
    expect(&rt, second, [0, 0, 3, 2]);
    Ok(())
}

#[test]
fn metadata_stay(rt: HostRuntime) -> Result<(), Fail> {
    let alloc = rt.alloc();
    let fuse = Fuse::new(alloc, 1)?;
    let mut stopping = device(alloc, &fuse)?;
    let answers = (fill_first(&mut stopping, 1), fill_first(&mut stopping, 2));
    same(&rt, &"its writes", answers, (true, false));
    expect(&rt, stopping, [1, 1, 0, 0]);
    Ok(())
}
