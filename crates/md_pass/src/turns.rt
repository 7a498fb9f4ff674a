// All turns of a pass.
ghost use Rattle.std.specs.Prelude.{◌≡◌, ◌+◌, ◌*◌, ◌<◌, ◌≤◌, length, [], ℕ, OnErr, OnOk, slice_index_or};
ghost use Rattle.std.specs.List.{All};
ghost use Rattle.md_collect.specs.Reading.{CountsFailure};
ghost use Rattle.md_collect.specs.Collecting.{copying};
ghost use Rattle.md_collect.specs.Workers.Gates.{IsToldOfReads};
ghost use Rattle.md_pass.specs.Beside.{KeepsBeside};
ghost use Rattle.md_pass.specs.TakingReports.{books};
ghost use Rattle.md_pass.specs.Handing.{HaveMemory};
ghost use Rattle.md_pass.specs.Passes.{IsPassing, QueuesOnlyRead};

use crate::beside::take_and_read;
use crate::hand_over::hand_over;
use crate::joined::Joined;
use crate::take_report::take_reports;
use md_bitmap::{Chunks, Marks};
use md_collect::{Board, Collector, Queue, Reports};
use md_device::{Device, WriteFault};
use md_streams::Gate;
use std::sync::ledger::Ledger;
use std::sync::{Mutex, Wait};
use std::thread::Threads;

/// The turns of a pass: how many there are, and how each queue is read in them.
#[derive(Drop)]
pub(crate) struct Turns<'a, G, L: Ledger, M: Ledger, R> {
    /// What starts the threads of the workers.
    pub(crate) rt: &'a R,
    /// It is told of each read.
    pub(crate) gate: &'a G,
    /// It notes each slot that was read, and whether the read failed.
    pub(crate) board: &'a Mutex<Board<L, M>>,
    pub(crate) count: usize,
    pub(crate) chunks: Chunks,
    /// How many chunks a worker reads in a turn at most.
    pub(crate) most: usize,
}

/// Goes turn by turn until each queue has read all of its chunks: the workers read the next chunks of each
/// queue, and the collector takes meanwhile what they reported in the turn before. It takes no memory, so only
/// a failed write of the target ends it before.
#[tactic(auto, using(md_collect::proofs::WorkerLemmas::Gates::told_none))]
pub(crate) fn run_turns<
    D: Device + Send,
    G: Gate + Sync,
    L: Ledger + Send + Sync,
    M: Ledger + Send + Sync,
    R: Threads + Wait + Sync,
>(
    turns: &Turns<'_, G, L, M, R>,
    collector: &mut Collector,
    target: &mut D,
    copied: &mut Marks,
    joined: &mut Joined,
    waiting: &mut Vec<Reports>,
    queues: &mut Vec<Queue<D, L, M>>,
) -> Result<(), WriteFault>
    requires chunks { turns.now.chunks ≡ collector.old.chunks }
    requires turns { All (λ queue. length queue.chunks.items ≤ turns.now.count * turns.now.most) queues.old.items }
    requires memory { HaveMemory turns.now.chunks turns.now.most queues.old.items waiting.old.items }
    requires fresh { IsPassing D.Device (D.honest target.old) queues.old.items queues.old.items
        (books collector.old (D.content target.old) copied.old) (books collector.old (D.content target.old) copied.old) }

    ensures passed { OnOk result (IsPassing D.Device (D.honest target.old) queues.old.items queues.new.items
        (books collector.old (D.content target.old) copied.old) (books collector.new (D.content target.new) copied.new)) }
    ensures done { OnOk result (All (λ queue. (queue.done ≡ length queue.chunks.items) × (queue.reports.waiting ≡ []))
        queues.new.items) }
    ensures failed { OnErr result (CountsFailure D.Device target.old target.new) }
    ensures told { OnOk result ((k : ℕ) (d : _) → k < length queues.old.items
        → IsToldOfReads G.Gate turns.now.gate.now (slice_index_or queues.old.items k d) (slice_index_or queues.new.items k d)) }

    ensures sources { QueuesOnlyRead D.Device queues.old.items queues.new.items }
    ensures target { KeepsBeside D.Device (copying collector.old) target.old target.new }
{
    for _turn in 0..turns.count {
        hand_over(queues, waiting);
        take_and_read(&*turns, collector, target, copied, joined, waiting, queues)?;
    }
    hand_over(queues, waiting);
    take_reports::<D, L, M>(collector, target, copied, joined, waiting)
}
