// The images that the rows begin with, and their devices. They are those of a clean array of two on small devices, but for
// the fields that are told.
ghost use Rattle.std.specs.Prelude.{◌≤◌};

use example_members::{copy_of, member_image, put, seal, small_metadata, zeros};
use md_device::{Device, FaultDevice, MemDevice};
use std::alloc::Global;
use std::test::Fail;

pub(crate) type Testing = FaultDevice<MemDevice>;

// The fewest sectors that a new device may have: 2048, and those of the array.
pub(crate) const LEAST_SECTORS: u64 = 2112;

const SMALL_SECTORS: u64 = 88;

// A field of the superblock, or of the bitmap's first sector: from this byte on, of so many bytes, with this value.
#[derive(Clone, Copy)]
pub(crate) enum Field {
    Super(usize, usize, u64),
    Map(usize, usize, u64),
}

// The entries of a log: the first sector, how far each is from the one before, how many there are, and the sectors of each.
pub(crate) type Entries = (u64, u64, u64, u64);

#[derive(Clone, Copy)]
pub(crate) struct Image {
    // What is other than in a small member of number 0 whose events, and those of its bitmap, are 10.
    pub(crate) fields: &'static [Field],
    pub(crate) also: &'static [Field],
    // Where its device has room for a log, what stands in that: its data begin at sector 2048 then.
    pub(crate) log: Option<Entries>,
    // Reads of these sectors fail.
    pub(crate) bad: &'static [u64],
    // The writes of these numbers fail, having left a half where they are torn.
    pub(crate) fails: (u64, u64),
    pub(crate) torn: bool,
}

// Of the two members of the array: no device fails. Marks were last cleared two events before.
pub(crate) const FIRST: Image = Image {
    fields: &[Field::Map(32, 8, 8)],
    also: &[],
    log: None,
    bad: &[],
    fails: (1, 0),
    torn: false,
};

pub(crate) const SECOND: Image = Image {
    fields: &[Field::Super(160, 4, 1), Field::Map(32, 8, 8)],
    ..FIRST
};

// At the last event count.
pub(crate) const SPENT: [Field; 3] = [
    Field::Super(200, 8, u64::MAX),
    Field::Map(24, 8, u64::MAX),
    Field::Map(32, 8, u64::MAX),
];

fn put_value(block: &mut [u8; 4096], at: usize, width: usize, value: u64) {
    let bytes = value.to_le_bytes();
    put(block, at, &bytes[..width.min(8)]);
}

fn set(superblock: &mut [u8; 4096], marks: &mut [u8; 4096], fields: &[Field]) {
    for field in fields {
        match *field {
            Field::Super(at, width, value) => put_value(superblock, at, width, value),
            Field::Map(at, width, value) => put_value(marks, at, width, value),
        }
    }
}

fn log_of(entries: Entries) -> [u8; 4096] {
    let (first, step, count, len) = entries;
    let mut log = [0xff; 4096];
    for k in 0..count.min(512) {
        let start = first.wrapping_add(step.wrapping_mul(k));
        let entry = start.wrapping_mul(1024).wrapping_add(len);
        put(&mut log, 8 * k as usize, &entry.to_le_bytes());
    }
    log
}

fn small(alloc: Global, superblock: &[u8; 4096], marks: &[u8; 4096]) -> Result<MemDevice, Fail> {
    let mut device = zeros(alloc, SMALL_SECTORS)?;
    device.write(8, superblock)?;
    device.write(16, marks)?;
    Ok(device)
}

fn large(
    alloc: Global,
    superblock: &[u8; 4096],
    marks: &[u8; 4096],
    entries: Entries,
) -> Result<MemDevice, Fail> {
    let mut device = member_image(alloc, superblock, marks)?;
    device.write(2032, &log_of(entries))?;
    Ok(device)
}

// How many there are, where they are few.
fn roles_in(superblock: &[u8; 4096]) -> u32
    ensures { result ≤ 1920 }
{
    u32::from(superblock[220])
}

// The superblock is sealed with as many roles as it has.
pub(crate) fn image_of(alloc: Global, image: &Image) -> Result<MemDevice, Fail> {
    let (mut superblock, mut marks) = small_metadata(0, 10);
    if image.log.is_some() {
        put(&mut superblock, 128, &2048u64.to_le_bytes());
        put(&mut superblock, 186, &8u16.to_le_bytes());
        put(&mut superblock, 188, &2024u32.to_le_bytes());
    }
    set(&mut superblock, &mut marks, image.fields);
    set(&mut superblock, &mut marks, image.also);
    let roles = roles_in(&superblock);
    let superblock = seal(superblock, roles);
    match image.log {
        Some(entries) => large(alloc, &superblock, &marks, entries),
        None => small(alloc, &superblock, &marks),
    }
}

pub(crate) fn device_of(alloc: Global, image: &Image) -> Result<Testing, Fail> {
    let bad = image.bad.to_vec(alloc)?;
    let device = image_of(alloc, image)?;
    let (first, last) = image.fails;
    Ok(FaultDevice::new(device, bad, first, last, image.torn))
}

fn put_first(alloc: Global, devices: &mut Vec<Testing>, image: &Image) -> Result<(), Fail> {
    let device = device_of(alloc, image)?;
    devices.insert(0, device)?;
    Ok(())
}

// The devices of these images come before those.
pub(crate) fn put_before(
    alloc: Global,
    devices: &mut Vec<Testing>,
    images: &[Image],
) -> Result<(), Fail> {
    for image in images.iter().rev() {
        put_first(alloc, devices, image)?;
    }
    Ok(())
}

pub(crate) fn devices_of(alloc: Global, images: &[Image]) -> Result<Vec<Testing>, Fail> {
    let mut devices = Vec::new(alloc);
    put_before(alloc, &mut devices, images)?;
    Ok(devices)
}

// A new device, whose write of this number fails.
pub(crate) fn new_device(alloc: Global, sectors: u64, fails: u64) -> Result<Testing, Fail> {
    let zeros = zeros(alloc, sectors.min(LEAST_SECTORS))?;
    Ok(FaultDevice::new(zeros, Vec::new(alloc), fails, fails, false))
}

// A device of the fewest sectors that held a member of another array, with an entry in its log, and these bytes in the first
// sector of the data area and in the last.
pub(crate) fn used_device(alloc: Global, data: &[u8; 512]) -> Result<Testing, Fail> {
    let (mut superblock, marks) = small_metadata(0, 10);
    put(&mut superblock, 16, &[0x77; 16]);
    let mut device = member_image(alloc, &seal(superblock, 2), &marks)?;
    device.write(2032, &[0x20; 512])?;
    device.write(2048, data)?;
    device.write(2111, data)?;
    Ok(FaultDevice::new(device, Vec::new(alloc), 1, 0, false))
}

// A copy of an image, all of whose writes fail from this number on.
fn add_copy(
    alloc: Global,
    devices: &mut Vec<Testing>,
    image: &MemDevice,
    first: u64,
) -> Result<(), Fail> {
    let copy = copy_of(alloc, image)?;
    devices.push(FaultDevice::new(copy, Vec::new(alloc), first, u64::MAX - 1, false))?;
    Ok(())
}

pub(crate) fn copies_of(
    alloc: Global,
    images: &[MemDevice],
    first: &[u64],
) -> Result<Vec<Testing>, Fail> {
    let mut devices = Vec::new(alloc);
    for (image, first) in images.iter().zip(first) {
        add_copy(alloc, &mut devices, image, *first)?;
    }
    Ok(devices)
}
