// One pass, from the list of devices and back to it.
ghost use Rattle.std.specs.Prelude.{◌≡◌, ◌≤◌, All, MatchResult, OnOk, vec_capacity};
ghost use Rattle.std.specs.Int.{div_ceil};
ghost use Rattle.md_collect.specs.Places.{HasRoom};
ghost use Rattle.md_collect.specs.Collecting.{ArePlanned, copying};
ghost use Rattle.md_collect.specs.Workers.Gates.{IsTold};
ghost use Rattle.md_pass.specs.Copied.{AreUncopied, BreaksOff, EndsPass, WritesPlanned, pass_state};
ghost use Rattle.md_pass.specs.Preparing.{CanCopy, sources_of};
ghost use Rattle.md_pass.specs.Sources.{MayRead, copy_of};

use crate::fault::PassFault;
use crate::preparing::{Preparation, prepare};
use crate::put_back::put_back;
use crate::readings::turns_of;
use crate::source::Source;
use crate::take_out::take_out;
use crate::turns::{Turns, run_turns};
use crate::workers::Workers;
use md_bitmap::{Chunks, Marks};
use md_cert::Plan;
use md_collect::Board;
use md_device::Device;
use md_streams::Gate;
use std::marker::Brand;
use std::sync::ledger::{Blank, Ledger};
use std::sync::{Mutex, Wait};
use std::thread::Threads;

/// What a pass copies: the chunks of a plan, each from the source in the role that its slot names, to one target.
#[derive(Drop)]
pub struct Pass<'a> {
    pub plan: &'a Plan,
    pub chunks: Chunks,
    pub sources: &'a [Source],
    /// The sector of the target's device at which its data start.
    pub offset: u64,
}

/// What the board of a pass says at its end, in slots.
#[derive(Clone, Copy)]
pub struct BoardCounts {
    /// How many were not noted.
    pub left: u32,
    /// How many were noted as failed.
    pub failed: u32,
}

/// Copies the chunks of a plan to the target.
///
/// `devices` are all but the target's. Each source has a worker of its own, which reads the chunks of its slots in the
/// order of rounds. In a turn it reads the chunks of 1 MiB, or of 256 KiB if it is the only source, or one chunk if
/// that is longer. While the workers read those of the next turn, the collector takes what they report, that of the
/// lowest chunk next. Chunks below 64 KiB that lie together are written together, 256 KiB by one write at most,
/// and none waits longer than its turn. If there is only one source and its chunks are below 1 MiB, no thread starts: reads
/// and writes take turns. All memory is taken before a device leaves the list: for each source that of two turns, or
/// of one if it has no more chunks. The devices are back in their order whatever the answer is.
///
/// `copied` gets a mark for each chunk that was copied. After `Ok` a slot whose chunk has no mark failed: its
/// source could not be read there, and the target still has in that chunk what it had before. The board counts them.
///
/// `NoMemory` says that the pass got no memory; nothing was read then. A write that fails ends the pass with
/// `TargetFault`, once the reads of the next turn have ended: the target may have any bytes in the chunks of the
/// plan, and nothing is said of `copied`.
pub fn copy_pass<D: Device + Drop + Send, G: Gate + Sync, R: Threads + Wait + Sync>(
    workers: &Workers<'_, G, R>,
    pass: &Pass<'_>,
    devices: &mut Vec<D>,
    target: &mut D,
    copied: &mut Marks,
) -> Result<BoardCounts, PassFault>
    requires planned { ArePlanned pass.now.chunks pass.now.plan.now.slots }
    requires uncopied { AreUncopied pass.now.plan.now.slots copied.old }
    requires sources { MayRead D.Device pass.now.chunks pass.now.plan.now.slots pass.now.sources.now devices.old.items }
    requires room { HasRoom (D.content target.old) pass.now.offset pass.now.chunks }
    requires marks { copied.old.chunks ≡ div_ceil pass.now.chunks.size pass.now.chunks.sectors }

    ensures gives { MatchResult result
        (EndsPass D.Device (copy_of pass.now.plan.now.slots pass.now.chunks pass.now.offset) pass.now.sources.now
        (pass_state devices.old.items target.old copied.old) (pass_state devices.new.items target.new copied.new))
        (BreaksOff D.Device
        (pass_state devices.old.items target.old copied.old) (pass_state devices.new.items target.new copied.new)) }
    ensures writes { WritesPlanned D.Device (copy_of pass.now.plan.now.slots pass.now.chunks pass.now.offset)
        (pass_state devices.old.items target.old copied.old) (pass_state devices.new.items target.new copied.new) }
    ensures told { OnOk result (All (λ slot. IsTold G.Gate workers.now.gate.now slot.source slot.chunk)
        pass.now.plan.now.slots) }
    ensures capacity { vec_capacity devices.old ≤ vec_capacity devices.new }
{
    let prepared = prepare(workers.alloc, pass)?;
    let slots = prepared.slots as u64;
    let left = Blank::new(slots);
    let failed = Blank::new(slots);
    copy_prepared::<D, G, Brand, Brand, R>(workers, prepared, left, failed, devices, target, copied)
}

// Makes a pass of a plan that was prepared. The blanks name the ledgers of its board.
fn copy_prepared<
    D: Device + Drop + Send,
    G: Gate + Sync,
    L: Ledger + Send + Sync,
    M: Ledger + Send + Sync,
    R: Threads + Wait + Sync,
>(
    workers: &Workers<'_, G, R>,
    prepared: Preparation,
    left: Blank,
    failed: Blank,
    devices: &mut Vec<D>,
    target: &mut D,
    copied: &mut Marks,
) -> Result<BoardCounts, PassFault>
    requires can { CanCopy D.Device prepared (pass_state devices.old.items target.old copied.old) }
    requires left { (left.name ≡ L.name) × (left.parts ≡ L.parts) × (L.parts ≡ prepared.slots) }
    requires failed { (failed.name ≡ M.name) × (failed.parts ≡ M.parts) × (M.parts ≡ prepared.slots) }

    ensures gives { MatchResult result
        (EndsPass D.Device (copying prepared.collector) (sources_of prepared)
        (pass_state devices.old.items target.old copied.old) (pass_state devices.new.items target.new copied.new))
        (BreaksOff D.Device
        (pass_state devices.old.items target.old copied.old) (pass_state devices.new.items target.new copied.new)) }
    ensures writes { WritesPlanned D.Device (copying prepared.collector)
        (pass_state devices.old.items target.old copied.old) (pass_state devices.new.items target.new copied.new) }
    ensures told { OnOk result (All (λ slot. IsTold G.Gate workers.now.gate.now slot.source slot.chunk)
        prepared.collector.slots) }
    ensures capacity { vec_capacity devices.old ≤ vec_capacity devices.new }
{
    let Preparation {
        mut collector,
        chunks,
        slots,
        mut readings,
        most,
        mut joined,
        mut waiting,
        places,
    } = prepared;
    let count = turns_of(readings.as_slice(), most);
    let mut queues = Vec::with_capacity(workers.alloc, readings.len())?;
    let (board, share) = Board::<L, M>::new(slots, left, failed);
    let board = Mutex::new(board);
    let places = places.as_slice();
    let rest = take_out(devices, places, &mut readings, &mut queues, share);
    let result = run_turns(
        &Turns {
            rt: workers.rt,
            gate: workers.gate,
            board: &board,
            count,
            chunks,
            most,
        },
        &mut collector,
        target,
        copied,
        &mut joined,
        &mut waiting,
        &mut queues,
    );
    let mut all = put_back(places, &mut queues, devices, rest);
    result?;
    let mut board = board.into_inner();
    board.audit_share(&mut all);
    Ok(BoardCounts {
        left: board.left(),
        failed: board.failed(),
    })
}
