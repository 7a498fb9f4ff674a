// What a mirror shows, and what stands on a device.
use crate::steps::images::Testing;
use md_array::Mirror;
use md_badblocks::BadSet;
use md_device::Device;
use md_members::{MemberInfo, read_member};
use std::alloc::Global;
use std::test::Fail;

// Of the array.
const SECTORS: u64 = 64;

#[derive(Clone, Copy, PartialEq, Eq)]
pub(crate) struct Shown {
    pub(crate) members: usize,
    pub(crate) raid_disks: u32,
    pub(crate) events: u64,
    // The entries of the roles.
    pub(crate) entries: u32,
    // How many chunks are marked, and which is the first.
    pub(crate) marks: (u32, Option<u32>),
    // How many superblocks have to be stored.
    pub(crate) due: usize,
    pub(crate) in_flight: Option<u64>,
    pub(crate) clean: bool,
    pub(crate) resynced: bool,
    pub(crate) degraded: bool,
    pub(crate) halted: bool,
}

// A clean array of two members.
pub(crate) const CLEAN: Shown = Shown {
    members: 2,
    raid_disks: 2,
    events: 10,
    entries: 2,
    marks: (0, None),
    due: 0,
    in_flight: None,
    clean: true,
    resynced: true,
    degraded: false,
    halted: false,
};

pub(crate) fn what_shows(mirror: &Mirror<Testing>) -> Shown {
    let (shared, marks) = (mirror.shared(), mirror.marks());
    Shown {
        members: mirror.members(),
        raid_disks: shared.raid_disks,
        events: mirror.events(),
        entries: shared.roles.max_dev(),
        marks: (marks.count(), marks.next_marked(0)),
        due: how_many_due(mirror),
        in_flight: mirror.in_flight(),
        clean: shared.resync_offset == u64::MAX,
        resynced: mirror.resynced(),
        degraded: mirror.degraded(),
        halted: mirror.halted(),
    }
}

fn how_many_due(mirror: &Mirror<Testing>) -> usize {
    let mut due = 0usize;
    for k in 0..mirror.members() {
        if mirror.due(k) {
            due = due.saturating_add(1);
        }
    }
    due
}

#[derive(Clone, Copy, PartialEq, Eq)]
pub(crate) struct Stored {
    // Of the superblock.
    pub(crate) set_uuid: u128,
    pub(crate) device_uuid: u128,
    pub(crate) number: u32,
    pub(crate) role: u16,
    pub(crate) entries: u32,
    pub(crate) features: u32,
    pub(crate) events: u64,
    pub(crate) recovery_offset: u64,
    pub(crate) devflags: u8,
    pub(crate) data: (u64, u64),
    // The bitmap's events, those at which marks were last cleared, and how many chunks are marked.
    pub(crate) bitmap: (u64, u64),
    pub(crate) marked: u32,
    // How many runs are listed, and the first sector and the length of the first.
    pub(crate) listed: (usize, u64, u64),
    // The bytes of the data that are no zeros: the sectors of the array with the first and the last of them, how many they are,
    // and what they add up to.
    pub(crate) written: (u64, u64, u64, u64),
}

// Member 0 of the array with no marks.
pub(crate) const UNWRITTEN: Stored = Stored {
    set_uuid: 0x0011_2233_4455_6677_8899_aabb_ccdd_eeff,
    device_uuid: 0x1111_1111_1111_1111_1111_1111_1111_1111,
    number: 0,
    role: 0,
    entries: 2,
    features: 1,
    events: 10,
    recovery_offset: 0,
    devflags: 0,
    data: (24, 64),
    bitmap: (10, 8),
    marked: 0,
    listed: (0, 0, 0),
    written: NOTHING,
};

pub(crate) const NOTHING: (u64, u64, u64, u64) = (u64::MAX, 0, 0, 0);

// Sector 8 of the array with the bytes that the steps write.
pub(crate) const SECTOR_8: (u64, u64, u64, u64) = (8, 8, 512, 512 * 0xa5);

// What is written with one byte more, which is the k-th of the data.
fn with(so_far: (u64, u64, u64, u64), k: usize, byte: u8) -> (u64, u64, u64, u64) {
    let (first, _, count, sum) = so_far;
    let sector = k as u64 / 512;
    (
        first.min(sector),
        sector,
        count.saturating_add(1),
        sum.saturating_add(u64::from(byte)),
    )
}

fn written_in(data: &[u8]) -> (u64, u64, u64, u64) {
    let mut written = NOTHING;
    for (k, byte) in data.iter().enumerate() {
        if *byte != 0 {
            written = with(written, k, *byte);
        }
    }
    written
}

pub(crate) fn listed_in(bad: &BadSet) -> (usize, u64, u64) {
    match bad.runs() {
        [] => (0, 0, 0),
        [first, ..] => (bad.runs().len(), first.start, first.len),
    }
}

// All but what is written.
fn told_by(info: &MemberInfo) -> Stored {
    let own = &info.superblock;
    Stored {
        set_uuid: own.set_uuid.as_u128(),
        device_uuid: own.device_uuid.as_u128(),
        number: own.dev_number,
        role: own.role_of(own.dev_number),
        entries: own.roles.max_dev(),
        features: own.feature_map,
        events: own.events,
        recovery_offset: own.recovery_offset,
        devflags: own.devflags,
        data: (own.data_offset, own.data_size),
        bitmap: match &info.header {
            Some(header) => (header.events, header.events_cleared),
            None => (0, 0),
        },
        marked: match &info.marks {
            Some(marks) => marks.count(),
            None => 0,
        },
        listed: listed_in(&info.bad),
        written: NOTHING,
    }
}

fn written_on<D: Device>(device: &mut D, start: u64) -> Result<(u64, u64, u64, u64), Fail> {
    let sectors = device.sectors();
    if sectors < SECTORS || start > sectors - SECTORS {
        return Err(Fail::new("the data don't lie on the device"));
    }
    let mut data = [0; 512 * SECTORS as usize];
    device.read(start, &mut data)?;
    Ok(written_in(&data))
}

pub(crate) fn stored_on<D: Device>(alloc: Global, device: &mut D) -> Result<Stored, Fail> {
    let info = read_member(alloc, device)?;
    let told = told_by(&info);
    drop(info);
    let written = written_on(device, told.data.0)?;
    Ok(Stored { written, ..told })
}
