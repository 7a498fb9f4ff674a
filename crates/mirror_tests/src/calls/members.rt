// Members of the vault's array, whose sectors are filled with a byte each, on devices that fail where they are told to.
use crate::calls::data::{Data, NUMBERED, SECTORS, WHOLE};
use example_members::{bitmap, member_image, put, seal, vault};
use md_device::{Device, FaultDevice, MemDevice};
use std::alloc::Global;
use std::test::Fail;

// Where the data of a member begin, and its bad block log.
pub(crate) const DATA: u64 = 2048;

const LOG: u64 = 2032;

pub(crate) const NEVER: u64 = u64::MAX;

pub(crate) const FAULTY: u16 = 0xfffe;

pub(crate) type Testing = FaultDevice<MemDevice>;

#[derive(Clone, Copy)]
pub(crate) struct Member {
    pub(crate) number: u32,
    pub(crate) raid_disks: u32,
    // Of the array, in sectors.
    pub(crate) size: u64,
    // What the entry of number 2 says. None where there is no such entry.
    pub(crate) third: Option<u16>,
    pub(crate) events: u64,
    // How far the events of its bitmap are below its own.
    pub(crate) bitmap_behind: u64,
    // The bits of the bitmap.
    pub(crate) marks: u8,
    // Its log lists this many sectors from this one of the array on. It has a log where these are some.
    pub(crate) listed: (u64, u64),
    // Of the array's sectors.
    pub(crate) data: Data,
    // Its log has room for no entry beside those that it has. They are of sectors past the array.
    pub(crate) is_log_full: bool,
    // It has no log at all.
    pub(crate) has_no_log: bool,
    // Reads of so many sectors from this one of the array on fail.
    pub(crate) bad: (u64, u64),
    // Writes fail from this number on, and then half of their sectors are written where they are torn.
    pub(crate) fails: u64,
    pub(crate) torn: bool,
    pub(crate) is_write_mostly: bool,
}

// Members of a clean array of two without a mark.
pub(crate) const FIRST: Member = Member {
    number: 0,
    raid_disks: 2,
    size: 64,
    third: None,
    events: 10,
    bitmap_behind: 0,
    marks: 0,
    listed: (0, 0),
    data: NUMBERED,
    is_log_full: false,
    has_no_log: false,
    bad: (0, 0),
    fails: NEVER,
    torn: false,
    is_write_mostly: false,
};

pub(crate) const SECOND: Member = Member { number: 1, ..FIRST };

// A third one is a spare.
pub(crate) const THIRD: Member = Member { number: 2, ..FIRST };

// What is other with one of some members, by a number.
#[derive(Clone, Copy)]
pub(crate) enum Vary {
    Nothing,
    // It can't be read in this sector of the array.
    Unreadable(usize),
    // Its writes fail from this one on.
    Unwritable(usize),
}

fn superblock_of(member: &Member) -> [u8; 4096] {
    let mut b = vault();
    if member.listed.1 > 0 || member.is_log_full {
        put(&mut b, 8, &9u32.to_le_bytes());
    }
    if member.is_log_full {
        put(&mut b, 186, &1u16.to_le_bytes());
    }
    if member.has_no_log {
        put(&mut b, 186, &0u16.to_le_bytes());
    }
    put(&mut b, 184, &[u8::from(member.is_write_mostly)]);
    put(&mut b, 80, &member.size.to_le_bytes());
    put(&mut b, 92, &member.raid_disks.to_le_bytes());
    put(&mut b, 160, &member.number.to_le_bytes());
    put(&mut b, 200, &member.events.to_le_bytes());
    match member.third {
        Some(role) => with_third(b, role),
        None => seal(b, 2),
    }
}

fn with_third(mut b: [u8; 4096], role: u16) -> [u8; 4096] {
    put(&mut b, 220, &3u32.to_le_bytes());
    put(&mut b, 260, &role.to_le_bytes());
    seal(b, 3)
}

fn bitmap_of(member: &Member) -> [u8; 4096] {
    let mut b = bitmap();
    let events = member.events.saturating_sub(member.bitmap_behind);
    put(&mut b, 24, &events.to_le_bytes());
    put(&mut b, 32, &member.events.to_le_bytes());
    put(&mut b, 40, &member.size.to_le_bytes());
    put(&mut b, 256, &[member.marks]);
    b
}

fn log_of(member: &Member) -> [u8; 4096] {
    if member.is_log_full {
        return full_log();
    }
    let mut log = [0xff; 4096];
    let (sector, len) = member.listed;
    if len > 0 {
        let start = DATA.wrapping_add(sector);
        let entry = start.wrapping_mul(1024).wrapping_add(len);
        put(&mut log, 0, &entry.to_le_bytes());
    }
    log
}

// One sector of entries, each of a single sector from 4096 on, every second one.
fn full_log() -> [u8; 4096] {
    let mut log = [0xff; 4096];
    for place in 0..64usize {
        let start = (place as u64).wrapping_mul(2).wrapping_add(4096);
        let entry = start.wrapping_mul(1024).wrapping_add(1);
        put(&mut log, 8 * place, &entry.to_le_bytes());
    }
    log
}

fn data_of(member: &Member) -> [u8; WHOLE] {
    let mut data = [0; WHOLE];
    for (k, byte) in data.iter_mut().enumerate() {
        *byte = member.data.byte(k / 512 % SECTORS);
    }
    data
}

pub(crate) fn device_of(alloc: Global, member: &Member) -> Result<MemDevice, Fail> {
    let mut device = member_image(alloc, &superblock_of(member), &bitmap_of(member))?;
    device.write(LOG, &log_of(member))?;
    device.write(DATA, &data_of(member))?;
    Ok(device)
}

fn bad_of(alloc: Global, member: &Member) -> Result<Vec<u64>, Fail> {
    let mut bad = Vec::new(alloc);
    for k in 0..member.bad.1 {
        bad.push(DATA.saturating_add(member.bad.0).saturating_add(k))?;
    }
    Ok(bad)
}

fn add(alloc: Global, devices: &mut Vec<Testing>, member: &Member) -> Result<(), Fail> {
    let bad = bad_of(alloc, member)?;
    let device = device_of(alloc, member)?;
    devices.push(FaultDevice::new(device, bad, member.fails, NEVER, member.torn))?;
    Ok(())
}

fn variant_of(member: &Member, k: usize, vary: Vary, number: u64) -> Member {
    match vary {
        Vary::Unreadable(j) if j == k => Member {
            bad: (number, 1),
            ..*member
        },
        Vary::Unwritable(j) if j == k => Member {
            fails: number,
            ..*member
        },
        _ => *member,
    }
}

fn add_all(
    alloc: Global,
    devices: &mut Vec<Testing>,
    members: &[Member],
    vary: Vary,
    number: u64,
) -> Result<(), Fail> {
    for (k, member) in members.iter().enumerate() {
        add(alloc, devices, &variant_of(member, k, vary, number))?;
    }
    Ok(())
}

pub(crate) fn devices_of(
    alloc: Global,
    members: &[Member],
    vary: Vary,
    number: u64,
) -> Result<Vec<Testing>, Fail> {
    let mut devices = Vec::new(alloc);
    add_all(alloc, &mut devices, members, vary, number)?;
    Ok(devices)
}

// These devices, which fail no more.
pub(crate) fn sound(alloc: Global, old: Vec<Testing>) -> Result<Vec<Testing>, Fail> {
    let mut devices = Vec::new(alloc);
    for device in old {
        let inner = device.into_inner();
        devices.push(FaultDevice::new(inner, Vec::new(alloc), NEVER, NEVER, false))?;
    }
    Ok(devices)
}
