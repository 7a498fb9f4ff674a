// How many reads of members fail while sectors of the array are read or copied, where some can't be read on one of them.
ghost use Rattle.std.specs.Prelude.{[], IfOk, false, length, refl};
ghost use Rattle.md_array.specs.Consistency.{IsConsistent};

use crate::calls::data::{Data, Filling, NONE_OTHER, WHOLE};
use crate::calls::members::{DATA, FIRST, Member, NEVER, device_of};
use crate::checks::holds;
use crate::open::open;
use md_array::Mirror;
use md_device::{Device, Fault, FaultDevice, FaultList, MemDevice, ReadFault, WriteFault};
use md_read::read;
use md_resync::{ResyncFault, resync};
use std::alloc::Global;
use std::process::Abort;
use std::test::Fail;

// A device that counts its reads that fail. No contract says which do: it is not honest.
#[derive(Drop)]
struct Counted {
    device: FaultDevice<MemDevice>,
    failed: u64,
    faults: FaultList,
}

impl Device for Counted {
    ghost content = { λ d. d.device.inner };

    ghost honest = { λ _. false };

    ghost faults = { λ d. d.faults.list };

    ghost failures = { λ d. length d.faults.list };

    ghost counts = { λ _. refl };

    ghost crashes = { λ _. [] };

    fn sectors(&self) -> u64 {
        self.device.sectors()
    }

    fn read(&mut self, sector: u64, buf: &mut [u8]) -> Result<(), ReadFault> {
        let outcome = self.device.read(sector, buf);
        if outcome.is_err() {
            self.failed = self.failed.saturating_add(1);
            self.faults = self.faults.with_fault(&Fault::read(sector, buf.len()));
        }
        outcome
    }

    fn write(&mut self, sector: u64, bytes: &[u8]) -> Result<(), WriteFault> {
        let outcome = self.device.write(sector, bytes);
        if outcome.is_err() {
            self.faults = self.faults.with_fault(&Fault::write(sector, bytes.len()));
        }
        outcome
    }
}

// A member that is filled with its number, has these bits in its bitmap, and can't be read in these sectors of the array.
fn failing_member(alloc: Global, number: u8, marks: u8, bad: &[u64]) -> Result<Counted, Fail> {
    let mut sectors = Vec::new(alloc);
    for sector in bad {
        sectors.push(DATA.saturating_add(*sector))?;
    }
    let member = Member {
        number: u32::from(number),
        marks,
        data: Data(Filling::Same(number), NONE_OTHER, NONE_OTHER),
        ..FIRST
    };
    let device = device_of(alloc, &member)?;
    Ok(Counted {
        device: FaultDevice::new(device, sectors, NEVER, NEVER, false),
        failed: 0,
        faults: FaultList::empty(),
    })
}

// What can't be read on each of two members, and how many reads of each fail until all is read.
struct Row {
    bad: [&'static [u64]; 2],
    failed: [u64; 2],
}

const ROWS: [Row; 4] = [
    // The other member is asked for all that was asked of the first.
    Row {
        bad: [&[20, 21, 22, 23, 24, 25, 26, 27, 28, 29], &[]],
        failed: [1, 0],
    },
    Row {
        bad: [&[], &[20, 21, 22, 23]],
        failed: [0, 0],
    },
    // Neither gives all.
    Row {
        bad: [&[20, 21, 22, 23, 24, 25, 26, 27], &[50]],
        failed: [2, 1],
    },
    // Neither gives two in a row.
    Row {
        bad: [&[20, 22, 24, 26], &[21, 23, 25, 27]],
        failed: [18, 14],
    },
];

fn mirror_of(alloc: Global, marks: u8, bad: &[&[u64]; 2]) -> Result<Mirror<Counted>, Fail>
    ensures { IfOk result (λ mirror. IsConsistent mirror) }
{
    let mut devices = Vec::new(alloc);
    let first = failing_member(alloc, 0, marks, bad[0])?;
    devices.push(first)?;
    let second = failing_member(alloc, 1, marks, bad[1])?;
    devices.push(second)?;
    open(alloc, devices)
}

// Each sector comes from a member that can be read there.
fn are_given(buf: &[u8], row: &Row) -> bool {
    for (k, byte) in buf.iter().enumerate() {
        let sector = k as u64 / 512;
        if *byte > 1 || row.bad[usize::from(*byte) % 2].contains(&sector) {
            return false;
        }
    }
    true
}

// How many reads of the members failed.
fn failed_of(mirror: Mirror<Counted>) -> [u64; 2] {
    let devices = mirror.into_devices();
    let mut failed = [NEVER; 2];
    for (k, device) in devices.iter().enumerate() {
        if k < 2 {
            failed[k] = device.failed;
        }
    }
    drop(devices);
    failed
}

fn expect_row(rt: &impl Abort, alloc: Global, row: &Row) -> Result<(), Fail> {
    let mut mirror = mirror_of(alloc, 0, &row.bad)?;
    let mut buf = [9; WHOLE];
    let answer = read(&mut mirror, 0, &mut buf);
    let failed = failed_of(mirror);
    holds(
        rt,
        &(answer, failed),
        answer.is_ok() && failed == row.failed,
    );
    holds(rt, &"the sectors", are_given(&buf, row));
    Ok(())
}

#[test]
fn a_bad_area_takes_few_failing_reads(rt: HostRuntime) -> Result<(), Fail> {
    for row in &ROWS {
        expect_row(&rt, rt.alloc(), row)?;
    }
    Ok(())
}

// Each chunk is marked, and this sector of the member that gives all can't be read: all chunks are read together, and
// then one by one up to that of the sector.
fn expect_unread(rt: &impl Abort, alloc: Global, sector: u32) -> Result<(), Fail> {
    let mut mirror = mirror_of(alloc, 0xff, &[&[u64::from(sector)], &[]])?;
    let answer = resync(alloc, &mut mirror);
    if answer == Err(ResyncFault::NoMemory) {
        return Err(Fail::new("no memory"));
    }
    let failed = failed_of(mirror);
    let fault = ResyncFault::ReadFault(0, sector / 8);
    holds(
        rt,
        &(answer, failed),
        answer == Err(fault) && failed == [2, 0],
    );
    Ok(())
}

#[test]
fn a_bad_sector_is_read_twice_by_a_resync(rt: HostRuntime) -> Result<(), Fail> {
    for sector in [0, 37, 63] {
        expect_unread(&rt, rt.alloc(), sector)?;
    }
    Ok(())
}
