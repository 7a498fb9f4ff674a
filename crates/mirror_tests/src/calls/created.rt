// Members as they are made, each with a log of 512 entries.
ghost use Rattle.std.specs.Prelude.{IfOk};
ghost use Rattle.md_array.specs.Consistency.{IsConsistent};

use crate::calls::members::DATA;
use crate::open::open;
use md_array::Mirror;
use md_create::{CreateParams, NewMember, create, lay_out};
use md_device::{Device, MemDevice};
use std::alloc::Global;
use std::test::Fail;
use uuid::Uuid;

// Of the array: 40 chunks of 64 sectors.
pub(crate) const CHUNK: u32 = 64;

pub(crate) const SECTORS: u64 = 2560;

// What a spare holds before.
pub(crate) const NEW: u8 = 0xee;

pub(crate) fn byte_of(sector: u64) -> u8 {
    (sector.wrapping_mul(7).wrapping_add(sector / 256) % 200) as u8
}

// A device of the array's size that holds these.
pub(crate) fn image(alloc: Global, is_new: bool) -> Result<MemDevice, Fail> {
    let mut bytes = vec![in alloc; 0; 512 * 4608]?;
    for (k, byte) in bytes.as_mut_slice().iter_mut().enumerate() {
        let sector = (k as u64 / 512).saturating_sub(DATA);
        *byte = if is_new { NEW } else { byte_of(sector) };
    }
    if bytes.len() % 512 != 0 {
        return Err(Fail::new("a part of a sector"));
    }
    Ok(MemDevice::from_bytes(bytes))
}

pub(crate) fn made_image(alloc: Global, member: &NewMember) -> Result<MemDevice, Fail> {
    let mut device = image(alloc, false)?;
    if device.sectors() < 2048 {
        return Err(Fail::new("a short device"));
    }
    lay_out(&mut device, member)?;
    Ok(device)
}

fn params(mostly: Option<u32>) -> CreateParams {
    CreateParams {
        set_uuid: Uuid::from_u128(0x0011_2233_4455_6677_8899_aabb_ccdd_eeff),
        name: [0; 32],
        ctime: 1,
        size: Some(SECTORS),
        chunk_bytes: 512 * CHUNK,
        assume_clean: true,
        write_mostly: mostly,
    }
}

// So many members, in sync, of an array in which one more is missing.
pub(crate) fn made_members(
    alloc: Global,
    count: usize,
    mostly: Option<u32>,
) -> Result<Vec<NewMember>, Fail> {
    let mut sizes = Vec::new(alloc);
    for _ in 0..count {
        sizes.push(Some(4608))?;
    }
    sizes.push(None)?;
    Ok(create(alloc, &params(mostly), sizes.as_slice())?)
}

// A spare comes to these devices. The answer is its index, too.
pub(crate) fn with_spare<D: Device + Drop>(
    alloc: Global,
    devices: Vec<D>,
    spare: D,
) -> Result<(Mirror<D>, usize), Fail>
    ensures { IfOk result (λ both. IsConsistent both.0) }
{
    let mut mirror = open(alloc, devices)?;
    match mirror.add(alloc, spare) {
        Ok(index) => Ok((mirror, index)),
        Err(_) => Err(Fail::new("no spare")),
    }
}
