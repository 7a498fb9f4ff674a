// The members of a new array agree once it is resynchronised, whatever stood in their data.
use crate::checks::{holds, same};
use example_members::zeros;
use md_call_laws::fresh_agreement;
use md_create::{CreateParams, NewMember, create, lay_out};
use md_device::{Device, MemDevice};
use std::alloc::Global;
use std::process::Abort;
use std::test::Fail;
use uuid::Uuid;

// Where the data of a new member on so short a device begin, and how many sectors the array has of them.
const DATA: usize = 512 * 2048;

const SECTORS: usize = 64;

// All chunks of the new array are marked.
fn params() -> CreateParams {
    CreateParams {
        set_uuid: Uuid::from_u128(0x0011_2233_4455_6677_8899_aabb_ccdd_eeff),
        name: [0; 32],
        ctime: 0,
        size: None,
        chunk_bytes: 4096,
        assume_clean: false,
        write_mostly: None,
    }
}

// A new member on a device whose data are this byte.
fn laid_out(alloc: Global, member: &NewMember, filling: u8) -> Result<MemDevice, Fail> {
    let mut device = zeros(alloc, 2112)?;
    device.write(2048, &[filling; 512 * SECTORS])?;
    lay_out(&mut device, member)?;
    Ok(device)
}

fn new_devices(alloc: Global) -> Result<Vec<MemDevice>, Fail> {
    let members = create(alloc, &params(), &[Some(2112), Some(2112)])?;
    let mut devices = Vec::new(alloc);
    for (member, filling) in members.iter().zip([1, 2]) {
        devices.push(laid_out(alloc, member, filling)?)?;
    }
    drop(members);
    Ok(devices)
}

fn expect_agreed(rt: &impl Abort, devices: &[MemDevice]) {
    same(rt, &"the devices", devices.len(), 2);
    for (k, device) in devices.iter().enumerate() {
        let data = device.bytes().get(DATA..);
        holds(rt, &k, data == Some([1; 512 * SECTORS].as_slice()));
    }
}

#[test]
fn new_members_agree(rt: HostRuntime) -> Result<(), Fail> {
    let alloc = rt.alloc();
    let mirror = fresh_agreement(alloc, new_devices(alloc)?).ok_or("it was refused")?;
    let devices = mirror.into_devices();
    expect_agreed(&rt, &devices);
    drop(devices);
    Ok(())
}
