// What is left on a device.
use crate::calls::data::{Data, SECTORS};
use crate::calls::members::{DATA, Member, Testing, device_of};
use md_device::MemDevice;
use md_members::read_member;
use std::alloc::Global;
use std::test::Fail;

// What else is looked at: that a log has this entry and no other; or that nothing is changed of this member.
#[derive(Clone, Copy)]
pub(crate) enum Also {
    Nothing,
    Entry([u8; 8]),
    Kept(Member),
}

// The event count of the superblock, how many chunks are marked, and the data.
#[derive(Clone, Copy)]
pub(crate) struct Left(
    pub(crate) u64,
    pub(crate) u32,
    pub(crate) Data,
    pub(crate) Also,
);

fn has_data(image: &MemDevice, data: &Data) -> bool {
    let start = 512 * DATA as usize;
    let area = image.bytes().get(start..start + 512 * SECTORS);
    area.is_some_and(|bytes| data.is_in(bytes, 0))
}

fn has_entry(image: &MemDevice, entry: [u8; 8]) -> bool {
    let Some(log) = image.bytes().get(512 * 2032..512 * 2040) else {
        return false;
    };
    let (first, rest) = log.split_at(log.len().min(8));
    first == entry.as_slice() && rest.iter().all(|byte| *byte == 0xff)
}

fn is_kept(alloc: Global, image: &MemDevice, kept: &Member) -> Result<bool, Fail> {
    let before = device_of(alloc, kept)?;
    let is_same = image.bytes() == before.bytes();
    drop(before);
    Ok(is_same)
}

fn has_also(alloc: Global, image: &MemDevice, also: &Also) -> Result<bool, Fail> {
    match also {
        Also::Nothing => Ok(true),
        Also::Entry(entry) => Ok(has_entry(image, *entry)),
        Also::Kept(member) => is_kept(alloc, image, member),
    }
}

// The event count of the superblock, and how many chunks are marked.
fn counts(alloc: Global, image: &mut MemDevice) -> Result<(u64, u32), Fail> {
    let info = read_member(alloc, image)?;
    let marked = info.marks.as_ref().map_or(0, |marks| marks.count());
    let counts = (info.superblock.events, marked);
    drop(info);
    Ok(counts)
}

fn is_left(alloc: Global, image: &mut MemDevice, left: &Left) -> Result<bool, Fail> {
    let Left(events, marked, data, also) = left;
    let has_also = has_also(alloc, image, also)?;
    let counts = counts(alloc, image)?;
    Ok(counts == (*events, *marked) && has_also && has_data(image, data))
}

// Whether the device has this.
pub(crate) fn has(alloc: Global, device: Testing, left: &Left) -> Result<bool, Fail> {
    let mut image = device.into_inner();
    let is_so = is_left(alloc, &mut image, left);
    drop(image);
    is_so
}
