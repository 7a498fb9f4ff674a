// The example of the crate tazmulja: it stands in the head of its lib.rt, word by word.
use crate::checks::holds;
use example_members::small_member;
use std::alloc::Global;
use std::test::Fail;
use tazmulja::{Device, Mirror, read, stop, write};

fn write_and_read<D: Device + Drop>(alloc: Global, disks: Vec<D>) -> anyhow::Result<[u8; 512]> {
    let mut mirror = match Mirror::open(alloc, disks) {
        Ok(mirror) => mirror,
        Err((_, fault)) => return Err(fault.into()),
    };
    write(&mut mirror, 8, &[0xa5; 512])?;
    let mut sector = [0; 512];
    read(&mut mirror, 8, &mut sector)?;
    stop(&mut mirror)?;
    Ok(sector)
}

#[test]
fn example(rt: HostRuntime) -> Result<(), Fail> {
    let alloc = rt.alloc();
    let disks = vec![in alloc; small_member(alloc, 0)?, small_member(alloc, 1)?]?;
    let sector = write_and_read(alloc, disks)?;
    holds(&rt, "the sector", sector == [0xa5; 512]);
    Ok(())
}
