// What a collector takes of the reports on a plan that reads two chunks crosswise, and what a report of a failed
// read keeps.
ghost use Rattle.std.specs.Prelude.{◌≡◌, IfOk};

use crate::checks::{holds, same};
use md_bitmap::Chunks;
use md_cert::{Plan, Slot, Slots};
use md_collect::{Collector, Refusal, Report, read_chunk, read_chunk_into};
use md_device::{FaultDevice, MemDevice};
use std::alloc::{AllocError, Global};
use std::marker::Model;
use std::process::Abort;
use std::test::Fail;

// The bytes of a chunk.
const CHUNK: usize = 4096;

// Chunk 0 is read from source 1, and chunk 1 from source 0.
const CROSSWISE: [Slot; 2] = [
    Slot {
        chunk: 0,
        source: 1,
        round: 0,
    },
    Slot {
        chunk: 1,
        source: 0,
        round: 0,
    },
];

const CHUNKS: Chunks = Chunks {
    sectors: 8,
    size: 16,
};

// A collector, and the target that it writes to, which has room for the chunks.
#[derive(Drop)]
struct Collecting {
    collector: Collector,
    target: FaultDevice<MemDevice>,
}

impl Model for Collecting {
    ghost use Rattle.std.specs.Prelude.{◌≡◌, length};

    ghost Value = { Unit {0} };

    ghost view = { λ _. tt };

    ghost invariant = { λ c. (c.collector.offset ≡ 0) × (c.collector.chunks.size ≡ 16) × (length c.target.inner ≡ 8192) };
}

fn collector(alloc: Global) -> Result<Collector, AllocError>
    ensures { IfOk result (λ c. (c.offset ≡ 0) × (c.chunks.size ≡ 16)) }
{
    let slots = Vec::from_slice(alloc, &CROSSWISE)?;
    let plan = Plan {
        slots: Slots::from_vec(slots),
        rounds: 1,
    };
    let collector = Collector::new(alloc, &plan, CHUNKS, 0);
    drop(plan);
    collector
}

impl Collecting {
    // The writes up to this number fail.
    fn new(alloc: Global, last: u64) -> Result<Collecting, AllocError> {
        let device = MemDevice::new(alloc, 16)?;
        let target = FaultDevice::new(device, Vec::new(alloc), 1, last, false);
        let collector = collector(alloc)?;
        Ok(Collecting { collector, target })
    }

    fn take(&mut self, report: Report) -> Result<(), Refusal> {
        self.collector.take(&mut self.target, report)
    }

    fn into_target(self) -> MemDevice {
        let Collecting { target, .. } = self;
        target.into_inner()
    }
}

// A report of a chunk by a source: as many bytes of one value, or none where it could not be read.
type Sent = (u32, u8, Option<(usize, u8)>);

fn report_of(alloc: Global, sent: Sent) -> Result<Report, AllocError> {
    let (chunk, source, bytes) = sent;
    let Some((len, byte)) = bytes else {
        return Ok(Report::failed(chunk, source));
    };
    let bytes = vec![in alloc; byte; len]?;
    Ok(Report::delivered(chunk, source, bytes))
}

fn takes(
    rt: &impl Abort,
    alloc: Global,
    collecting: &mut Collecting,
    reports: &[(Sent, Result<(), Refusal>)],
) -> Result<(), Fail> {
    for (sent, wanted) in reports {
        let report = report_of(alloc, *sent)?;
        same(rt, &"what is answered", collecting.take(report), *wanted);
    }
    Ok(())
}

const TAKEN_ONCE: [(Sent, Result<(), Refusal>); 7] = [
    ((0, 1, Some((CHUNK, 7))), Ok(())),
    ((0, 1, Some((CHUNK, 8))), Err(Refusal::Double)),
    ((1, 1, Some((CHUNK, 9))), Err(Refusal::Stranger)),
    ((5, 0, Some((CHUNK, 9))), Err(Refusal::Stranger)),
    ((1, 0, Some((100, 9))), Err(Refusal::Length)),
    ((1, 0, None), Ok(())),
    ((1, 0, Some((CHUNK, 9))), Err(Refusal::Double)),
];

fn expect_taken_once(
    rt: &impl Abort,
    alloc: Global,
    collecting: &mut Collecting,
) -> Result<(), Fail> {
    takes(rt, alloc, collecting, &TAKEN_ONCE)?;
    same(rt, &"the reports", collecting.collector.reports(), 2);
    Ok(())
}

// Chunk 0 was written, and chunk 1 was not.
fn expect_written(rt: &impl Abort, target: &MemDevice) {
    holds(rt, &"chunk 0", target.bytes().starts_with(&[7; CHUNK]));
    holds(rt, &"chunk 1", target.bytes().ends_with(&[0; CHUNK]));
}

#[test]
fn each_planned_chunk_is_taken_once(rt: HostRuntime) -> Result<(), Fail> {
    let mut collecting = Collecting::new(rt.alloc(), 0)?;
    let taken = expect_taken_once(&rt, rt.alloc(), &mut collecting);
    let target = collecting.into_target();
    if taken.is_ok() {
        expect_written(&rt, &target);
    }
    drop(target);
    taken
}

const SPOILED: [(Sent, Result<(), Refusal>); 5] = [
    ((0, 1, Some((CHUNK, 7))), Err(Refusal::TargetFault)),
    ((0, 1, Some((CHUNK, 7))), Err(Refusal::Spoiled)),
    ((1, 0, Some((CHUNK, 7))), Err(Refusal::Spoiled)),
    ((1, 0, None), Err(Refusal::Spoiled)),
    ((5, 0, Some((CHUNK, 7))), Err(Refusal::Spoiled)),
];

fn expect_spoiled(rt: &impl Abort, alloc: Global, collecting: &mut Collecting) -> Result<(), Fail> {
    takes(rt, alloc, collecting, &SPOILED)?;
    same(rt, &"the reports", collecting.collector.reports(), 0);
    Ok(())
}

#[test]
fn a_target_fault_ends_the_counting(rt: HostRuntime) -> Result<(), Fail> {
    let mut collecting = Collecting::new(rt.alloc(), 1)?;
    let spoiled = expect_spoiled(&rt, rt.alloc(), &mut collecting);
    drop(collecting);
    spoiled
}

// The chunk of a source that can't read its sector 3, read into memory that is long enough.
fn read_of_a_bad_sector(alloc: Global) -> Result<Report, AllocError> {
    let device = MemDevice::new(alloc, 16)?;
    let mut source = FaultDevice::new(device, vec![in alloc; 3; 1]?, 1, 0, false);
    let spare = vec![in alloc; 0; CHUNK]?;
    let report = read_chunk_into(alloc, spare, &mut source, 0, 0, CHUNKS, 0);
    drop(source);
    report
}

#[test]
fn a_failed_read_keeps_its_memory(rt: HostRuntime) -> Result<(), Fail> {
    let report = read_of_a_bad_sector(rt.alloc())?;
    holds(&rt, &"the read failed", report.is_failed());
    let kept = match report.into_memory() {
        Some(memory) => memory.len(),
        None => 0,
    };
    same(&rt, &"the bytes that are kept", kept, CHUNK);
    Ok(())
}

// Chunk 1 of a source, all of whose bytes are these.
fn read_of_a_good_chunk(alloc: Global) -> Result<Report, AllocError> {
    let mut source = MemDevice::from_bytes(vec![in alloc; 3; 2 * CHUNK]?);
    let report = read_chunk(alloc, &mut source, 0, 0, CHUNKS, 1);
    drop(source);
    report
}

#[test]
fn what_is_read_is_taken(rt: HostRuntime) -> Result<(), Fail> {
    let report = read_of_a_good_chunk(rt.alloc())?;
    let mut collecting = Collecting::new(rt.alloc(), 0)?;
    same(&rt, &"what is answered", collecting.take(report), Ok(()));
    let target = collecting.into_target();
    holds(&rt, &"chunk 1", target.bytes().ends_with(&[3; CHUNK]));
    drop(target);
    Ok(())
}
