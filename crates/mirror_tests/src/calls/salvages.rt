// Salvages: what no member in sync can be read in is lost, and nothing else is, as a small model says.
ghost use Rattle.std.specs.Prelude.{◌≡◌, ◌*◌, [], IfOk, false, length, refl};
ghost use Rattle.md_array.specs.Consistency.{IsConsistent};

use crate::calls::members::{DATA, NEVER, Testing};
use crate::checks::holds;
use crate::gates::Silent;
use crate::open::open;
use md_array::Mirror;
use md_badblocks::BadSet;
use md_copy::{Salvaged, salvage};
use md_create::{CreateParams, NewMember, create, lay_out};
use md_device::{Device, Fault, FaultDevice, FaultList, MemDevice, ReadFault, WriteFault};
use std::alloc::Global;
use std::process::Abort;
use std::sync::Wait;
use std::test::Fail;
use std::thread::Threads;
use uuid::Uuid;

// Of the array: 40 chunks of 64 sectors.
const CHUNK: u32 = 64;

const SECTORS: u64 = 2560;

// What the target holds before.
const NEW: u8 = 0xee;

// The sectors in which a member can't be read.
#[derive(Clone, Copy, Debug)]
enum Bad {
    None,
    One(u64),
    // So many, each far from the others, by a seed.
    Apart(u64, u64),
    // Each of which the number leaves this rest by that divisor.
    Each(u64, u64),
    // So many of each so many.
    Runs(u64, u64),
    All,
}

impl Bad {
    fn has(self, sector: u64) -> bool {
        match self {
            Bad::None => false,
            Bad::One(one) => sector == one,
            Bad::Apart(count, seed) => place_of(sector, seed) < count,
            Bad::Each(divisor, rest) => sector % divisor.max(1) == rest,
            Bad::Runs(count, each) => sector % each.max(1) < count,
            Bad::All => true,
        }
    }
}

// Another order of the sectors: 1601 has no divisor in common with 2560.
fn place_of(sector: u64, seed: u64) -> u64 {
    sector.wrapping_mul(1601).wrapping_add(seed) % SECTORS
}

fn byte_of(sector: u64) -> u8 {
    (sector.wrapping_mul(7).wrapping_add(sector / 256) % 200) as u8
}

struct Row {
    bad: &'static [Bad],
    // The member of this role is write-mostly.
    mostly: Option<u32>,
    // How many sectors are lost, and how many more are listed.
    lost: u64,
    more: u64,
}

const ROW: Row = Row {
    bad: &[],
    mostly: None,
    lost: 0,
    more: 0,
};

const ROWS: [Row; 14] = [
    Row {
        bad: &[Bad::None],
        ..ROW
    },
    Row {
        bad: &[Bad::One(70)],
        lost: 1,
        ..ROW
    },
    Row {
        bad: &[Bad::Apart(3, 5)],
        lost: 3,
        ..ROW
    },
    Row {
        bad: &[Bad::Apart(50, 6)],
        lost: 50,
        ..ROW
    },
    Row {
        bad: &[Bad::Runs(15, 64)],
        lost: 600,
        ..ROW
    },
    // Beside a member that can be read nothing is lost, and no list grows.
    Row {
        bad: &[Bad::Apart(600, 7), Bad::None],
        ..ROW
    },
    Row {
        bad: &[Bad::Apart(50, 7), Bad::All, Bad::None],
        ..ROW
    },
    Row {
        bad: &[Bad::None, Bad::Apart(600, 7)],
        mostly: Some(0),
        ..ROW
    },
    // Holes that are not the same, that are the same in part, and of which the one has the other.
    Row {
        bad: &[Bad::Each(2, 0), Bad::Each(2, 1)],
        ..ROW
    },
    Row {
        bad: &[Bad::Each(4, 1), Bad::Each(6, 1)],
        lost: 214,
        ..ROW
    },
    Row {
        bad: &[Bad::All, Bad::Apart(50, 8)],
        lost: 50,
        ..ROW
    },
    Row {
        bad: &[Bad::All],
        lost: 2560,
        ..ROW
    },
    // More runs than a log has entries: 600, most of which lie four sectors from the next, and 1,280.
    Row {
        bad: &[Bad::Apart(600, 7)],
        lost: 600,
        more: 176,
        ..ROW
    },
    Row {
        bad: &[Bad::Each(2, 0)],
        lost: 1280,
        more: 768,
        ..ROW
    },
];

// A device of the array's size that holds these.
fn image(alloc: Global, is_new: bool) -> Result<MemDevice, Fail> {
    let mut bytes = vec![in alloc; 0; 512 * 4608]?;
    for (k, byte) in bytes.as_mut_slice().iter_mut().enumerate() {
        let sector = (k as u64 / 512).saturating_sub(DATA);
        *byte = if is_new { NEW } else { byte_of(sector) };
    }
    if bytes.len() % 512 != 0 {
        return Err(Fail::new("a part of a sector"));
    }
    Ok(MemDevice::from_bytes(bytes))
}

fn member_image(alloc: Global, member: &NewMember) -> Result<MemDevice, Fail> {
    let mut device = image(alloc, false)?;
    if device.sectors() < 2048 {
        return Err(Fail::new("a short device"));
    }
    lay_out(&mut device, member)?;
    Ok(device)
}

fn bad_sectors(alloc: Global, bad: Bad) -> Result<Vec<u64>, Fail> {
    let mut sectors = Vec::new(alloc);
    for sector in 0..SECTORS {
        if bad.has(sector) {
            sectors.push(DATA.saturating_add(sector))?;
        }
    }
    Ok(sectors)
}

fn params(mostly: Option<u32>) -> CreateParams {
    CreateParams {
        set_uuid: Uuid::from_u128(0x0011_2233_4455_6677_8899_aabb_ccdd_eeff),
        name: [0; 32],
        ctime: 1,
        size: Some(SECTORS),
        chunk_bytes: 512 * CHUNK,
        assume_clean: true,
        write_mostly: mostly,
    }
}

// So many members, in sync, of an array in which one more is missing.
fn members_of(alloc: Global, count: usize, mostly: Option<u32>) -> Result<Vec<NewMember>, Fail> {
    let mut sizes = Vec::new(alloc);
    for _ in 0..count {
        sizes.push(Some(4608))?;
    }
    sizes.push(None)?;
    match create(alloc, &params(mostly), sizes.as_slice()) {
        Ok(members) => Ok(members),
        Err(fault) => Err(Fail::from(fault)),
    }
}

fn sources(alloc: Global, row: &Row) -> Result<Vec<Testing>, Fail> {
    let members = members_of(alloc, row.bad.len(), row.mostly)?;
    let mut devices = Vec::new(alloc);
    for (bad, member) in row.bad.iter().zip(members.as_slice().iter()) {
        let image = member_image(alloc, member)?;
        let sectors = bad_sectors(alloc, *bad)?;
        devices.push(FaultDevice::new(image, sectors, NEVER, NEVER, false))?;
    }
    Ok(devices)
}

// A spare comes to these devices. The answer is its index, too.
fn with_spare<D: Device + Drop>(
    alloc: Global,
    devices: Vec<D>,
    spare: D,
) -> Result<(Mirror<D>, usize), Fail>
    ensures { IfOk result (λ both. IsConsistent both.0) }
{
    let mut mirror = open(alloc, devices)?;
    match mirror.add(alloc, spare) {
        Ok(index) => Ok((mirror, index)),
        Err(_) => Err(Fail::new("no spare")),
    }
}

// What is told of the salvage of the spare.
fn salvage_target<D: Device + Drop + Send, R: Threads + Wait + Sync>(
    rt: &R,
    alloc: Global,
    mirror: &mut Mirror<D>,
    target: usize,
) -> Result<Salvaged, Fail>
    requires { IsConsistent mirror.old }
{
    if target >= mirror.members() {
        return Err(Fail::new("no spare"));
    }
    match salvage(rt, alloc, mirror, target, &Silent) {
        Ok(told) => Ok(told),
        Err(fault) => Err(Fail::from(fault)),
    }
}

fn is_lost(row: &Row, sector: u64) -> bool {
    row.bad.iter().all(|bad| bad.has(sector))
}

// How many sectors a set has.
pub(crate) fn size_of(set: &BadSet) -> u64 {
    let mut size = 0u64;
    for run in set.runs() {
        size = size.wrapping_add(run.len);
    }
    size
}

fn expect_told(rt: &impl Abort, at: usize, row: &Row, told: &Salvaged) {
    for sector in 0..SECTORS {
        let is_lost = is_lost(row, sector);
        holds(
            rt,
            &("told", at, sector),
            told.lost.meets(sector, 1) == is_lost,
        );
        holds(
            rt,
            &("listed", at, sector),
            told.listed.meets(sector, 1) || !is_lost,
        );
    }
    let lost = size_of(&told.lost);
    let listed = size_of(&told.listed);
    holds(
        rt,
        &("how many", at, lost, listed),
        lost == row.lost && listed == row.lost.wrapping_add(row.more),
    );
}

// Each member lists what was told, and no more.
fn expect_lists(rt: &impl Abort, at: usize, mirror: &Mirror<Testing>, told: &Salvaged) {
    for k in 0..mirror.members() {
        holds(rt, &("in sync", at, k), mirror.state(k).is_in_sync());
        let bad = mirror.bad(k);
        holds(rt, &("list", at, k), size_of(bad) == size_of(&told.listed));
        for run in told.listed.runs() {
            let start = run.start.saturating_add(DATA);
            let is_so = bad
                .runs()
                .iter()
                .any(|own| own.start == start && own.len == run.len);
            holds(rt, &("run", at, k, run), is_so);
        }
    }
}

// What stands on a device. Sectors that are lost are as they were.
fn expect_data(
    rt: &impl Abort,
    at: (usize, usize),
    row: &Row,
    is_target: bool,
    device: &MemDevice,
) {
    for sector in 0..SECTORS {
        let start = 512usize.wrapping_mul(DATA.wrapping_add(sector) as usize);
        let byte = if is_target && is_lost(row, sector) {
            NEW
        } else {
            byte_of(sector)
        };
        let is_so = match device.bytes().get(start..start.wrapping_add(512)) {
            Some(bytes) => bytes.iter().all(|b| *b == byte),
            None => false,
        };
        holds(rt, &("data", at, sector), is_so);
    }
}

fn expect_row<R: Abort + Threads + Wait + Sync>(
    rt: &R,
    alloc: Global,
    at: usize,
    row: &Row,
) -> Result<(), Fail> {
    let spare = FaultDevice::new(image(alloc, true)?, Vec::new(alloc), NEVER, NEVER, false);
    let (mut mirror, target) = with_spare(alloc, sources(alloc, row)?, spare)?;
    let told = salvage_target(rt, alloc, &mut mirror, target)?;
    expect_told(rt, at, row, &told);
    expect_lists(rt, at, &mirror, &told);
    for (k, device) in mirror.into_devices().into_iter().enumerate() {
        expect_data(rt, (at, k), row, k == target, &device.into_inner());
    }
    Ok(())
}

#[test]
fn only_what_none_gives_is_lost(rt: HostRuntime) -> Result<(), Fail> {
    for (at, row) in ROWS.iter().enumerate() {
        expect_row(&rt, rt.alloc(), at, row)?;
    }
    Ok(())
}

// A device that gives its data one sector at a time. No contract says which reads fail: it is not honest.
#[derive(Drop)]
struct Narrow {
    device: MemDevice,
    faults: FaultList,
}

impl Device for Narrow {
    ghost content = { λ d. d.device };

    ghost honest = { λ _. false };

    ghost faults = { λ d. d.faults.list };

    ghost failures = { λ d. length d.faults.list };

    ghost counts = { λ _. refl };

    ghost crashes = { λ _. [] };

    fn sectors(&self) -> u64 {
        self.device.sectors()
    }

    fn read(&mut self, sector: u64, buf: &mut [u8]) -> Result<(), ReadFault> {
        if sector >= DATA && buf.len() > 512 {
            self.faults = self.faults.with_fault(&Fault::read(sector, buf.len()));
            return Err(ReadFault);
        }
        self.device.read(sector, buf)
    }

    fn write(&mut self, sector: u64, bytes: &[u8]) -> Result<(), WriteFault> {
        self.device.write(sector, bytes)
    }
}

// A sector whose chunk could not be read, and that is read at last, is not listed.
#[test]
fn a_member_that_gives_single_sectors(rt: HostRuntime) -> Result<(), Fail> {
    let alloc = rt.alloc();
    let mut devices = Vec::new(alloc);
    let members = members_of(alloc, 1, None)?;
    for member in members.as_slice() {
        devices.push(Narrow {
            device: member_image(alloc, member)?,
            faults: FaultList::empty(),
        })?;
    }
    let spare = Narrow {
        device: image(alloc, true)?,
        faults: FaultList::empty(),
    };
    let (mut mirror, target) = with_spare(alloc, devices, spare)?;
    let told = salvage_target(&rt, alloc, &mut mirror, target)?;
    holds(&rt, &"lost", told.lost.is_empty() && told.listed.is_empty());
    for (k, device) in mirror.into_devices().into_iter().enumerate() {
        expect_data(&rt, (0, k), &ROW, false, &device.device);
    }
    Ok(())
}
