// A turn beside the collector.
ghost use Rattle.std.specs.Prelude.{◌≡◌, ◌+◌, ◌-◌, ◌<◌, ◌≤◌, [], ℕ, List, length, min, OnErr, OnOk, slice_index_or};
ghost use Rattle.std.specs.List.{All};
ghost use Rattle.std.specs.Thread.{IsSend, IsSync};
ghost use Rattle.md_collect.specs.Reading.{CountsFailure};
ghost use Rattle.md_collect.specs.Workers.Queues.{IsReadyForTurn};
ghost use Rattle.md_collect.specs.declared.workers.queue.Queue.{Queue};
ghost use Rattle.md_pass.specs.Beside.{WritesBeside};
ghost use Rattle.md_pass.specs.TakingReports.{Books, books};
ghost use Rattle.md_pass.specs.Handing.{AreHanded, HaveRead, HaveTakenReports, all_with_reports};
ghost use Rattle.md_pass.specs.Passes.{IsPassing};

use crate::joined::Joined;
use crate::take_report::take_reports;
use crate::turns::Turns;
use md_bitmap::{Chunks, Marks};
use md_collect::{Collector, Queue, Reports, turn};
use md_device::{Device, WriteFault};
use md_streams::Gate;
use std::sync::Wait;
use std::sync::ledger::Ledger;
use std::thread;
use std::thread::Threads;

/// The collector takes the reports that it has, and each queue reads its next chunks: at the same time, where
/// that is worth a thread. What is read goes on where a write fails.
pub(crate) fn take_and_read<
    'a,
    D: Device + Send,
    G: Gate + Sync,
    L: Ledger + Send + Sync,
    M: Ledger + Send + Sync,
    R: Threads + Wait + Sync,
>(
    turns: &'a Turns<'a, G, L, M, R>,
    collector: &'a mut Collector,
    target: &'a mut D,
    copied: &'a mut Marks,
    joined: &'a mut Joined,
    waiting: &'a mut Vec<Reports>,
    queues: &'a mut Vec<Queue<D, L, M>>,
) -> Result<(), WriteFault>
    requires ready { All (λ queue. IsReadyForTurn D.Device turns.now.chunks turns.now.most queue) queues.old.items }
    requires passing { (firsts : List (Queue D L M)) × (others : List (Queue D L M)) × (first : Books) × AreHanded others waiting.old.items
        × IsPassing D.Device (D.honest target.old) firsts (all_with_reports others waiting.old.items) first
        (books collector.old (D.content target.old) copied.old) }

    ensures read { HaveRead D.Device G.Gate turns.now.gate.now turns.now.chunks turns.now.most queues.old.items queues.new.items }
    ensures reports_taken { OnOk result (HaveTakenReports D.Device L M (D.honest target.old)
        (books collector.old (D.content target.old) copied.old)
        (books collector.new (D.content target.new) copied.new) waiting.old.items waiting.new.items) }
    ensures taken { OnOk result (All (λ reports. reports.waiting ≡ []) waiting.new.items) }
    ensures failed { OnErr result (CountsFailure D.Device target.old target.new) }
    ensures writes { WritesBeside D.Device collector.old collector.new target.old target.new }
{
    let rt = turns.rt;
    let gate = turns.gate;
    let board = turns.board;
    let chunks = turns.chunks;
    let most = turns.most;
    let is_beside = is_worth_a_thread(chunks, queues.len());
    let mut read = ||
        requires { IsSend D.row × IsSync G.row × IsSend L.row × IsSync L.row × IsSend M.row × IsSync M.row × IsSync R.row
            × All (λ queue. IsReadyForTurn D.Device chunks most queue) queues.now.items }
        ensures { HaveRead D.Device G.Gate gate.entry.now chunks most queues.entry.now.items queues.exit.now.items }
    { turn(rt, gate, board, chunks, most, queues) };
    if is_beside {
        let (_, taken) = take_beside::<_, _, D, L, M, R>(
            rt, &mut read, collector, target, copied, joined, waiting,
        );
        return taken;
    }
    let taken = take_reports::<D, L, M>(collector, target, copied, joined, waiting);
    read();
    taken
}

// The sectors of 1 MiB.
const LONG_SECTORS: u32 = 2048;

// Whether what is read and what is written take so long that a thread more costs little. A lone queue of short
// chunks goes faster without: what it has just read is still in the processor's cache when it is written.
fn is_worth_a_thread(chunks: Chunks, queues: usize) -> bool {
    queues > 1 || chunks.sectors >= LONG_SECTORS
}

// The collector takes its reports in this thread, while `work` is done in another.
fn take_beside<F: FnMut() -> A + Send, A: Send, D: Device, L: Ledger, M: Ledger, R: Threads>(
    rt: &R,
    work: &mut F,
    collector: &mut Collector,
    target: &mut D,
    copied: &mut Marks,
    joined: &mut Joined,
    waiting: &mut Vec<Reports>,
) -> (A, Result<(), WriteFault>)
    requires work { F.pre work.old }
    requires passing { (firsts : List (Queue D L M)) × (others : List (Queue D L M)) × (first : Books) × AreHanded others waiting.old.items
        × IsPassing D.Device (D.honest target.old) firsts (all_with_reports others waiting.old.items) first
        (books collector.old (D.content target.old) copied.old) }

    ensures works { F.step work.old result.0 work.new }
    ensures reports_taken { OnOk result.1 (HaveTakenReports D.Device L M (D.honest target.old)
        (books collector.old (D.content target.old) copied.old)
        (books collector.new (D.content target.new) copied.new) waiting.old.items waiting.new.items) }
    ensures taken { OnOk result.1 (All (λ reports. reports.waiting ≡ []) waiting.new.items) }
    ensures failed { OnErr result.1 (CountsFailure D.Device target.old target.new) }
    ensures writes { WritesBeside D.Device collector.old collector.new target.old target.new }
{
    thread::join_mut(
        rt,
        work,
        &mut || take_reports::<D, L, M>(collector, target, copied, joined, waiting),
    )
}
