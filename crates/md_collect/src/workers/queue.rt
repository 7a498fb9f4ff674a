// A source with the chunks that it reads, and the worker that reads the next of them.
ghost use Rattle.std.specs.Prelude.{◌≡◌, ◌+◌, ◌-◌, ◌<◌, ◌≤◌, length, min, slice_get};
ghost use Rattle.md_collect.specs.Workers.Gates.{IsToldOfReads};
ghost use Rattle.md_collect.specs.Workers.Queues.{ReadsNextSlot, HasWorked, IsReadyForTurn, MayReadOn, slots_read};
ghost use Rattle.md_collect.specs.Workers.Tally.{noted};
ghost use Rattle.md_collect.specs.Workers.Waiting.{HasMemoryFor};

use crate::workers::board::{Board, Share};
use crate::workers::reports::Reports;
use md_bitmap::Chunks;
use md_device::Device;
use md_streams::Gate;
use std::sync::ledger::Ledger;
use std::sync::{Mutex, Wait};

/// A source, and what it has to read in a pass.
#[derive(Drop)]
pub struct Queue<D, L: Ledger, M: Ledger> {
    pub device: D,
    /// The member's role.
    pub role: u8,
    /// The sector of the device at which the member's data start.
    pub offset: u64,
    /// The chunks that it reads, in the order of rounds.
    pub chunks: Vec<u32>,
    /// Of how many of them the collector has the reports.
    pub done: usize,
    /// Its share of the board.
    pub share: Share<L, M>,
    /// Those that the collector does not have yet: of the chunks that come next.
    pub reports: Reports,
}

impl<D, L: Ledger, M: Ledger> Queue<D, L, M> {
    // The chunk that it reads next, if there is one.
    fn next_chunk(&self) -> Option<u32>
        requires { slots_read self.now ≤ length self.now.chunks.items }
        ensures { result ≡ slice_get self.now.chunks.items (slots_read self.now) }
    {
        self.chunks.get(self.done + self.reports.len()).copied()
    }
}

/// Reads the queue's next chunks one after another, so many or as many as there are. It takes no memory.
pub(crate) fn work<D: Device, G: Gate, L: Ledger, M: Ledger, R: Wait>(
    rt: &R,
    gate: &G,
    board: &Mutex<Board<L, M>>,
    chunks: Chunks,
    most: usize,
    queue: &mut Queue<D, L, M>,
)
    requires { IsReadyForTurn D.Device chunks most queue.old }
    ensures worked { HasWorked D.Device chunks most queue.old queue.new }
    ensures told { IsToldOfReads G.Gate gate.now queue.old queue.new }
{
    for _slot in 0..most {
        if !read_next(rt, gate, board, chunks, queue) {
            return;
        }
    }
}

// Reads the queue's next chunk, if there is one, notes it on the board, and answers whether it did. Neither
// the read nor the gate is under the board's lock.
fn read_next<D: Device, G: Gate, L: Ledger, M: Ledger, R: Wait>(
    rt: &R,
    gate: &G,
    board: &Mutex<Board<L, M>>,
    chunks: Chunks,
    queue: &mut Queue<D, L, M>,
) -> bool
    requires may { MayReadOn D.Device chunks queue.old }
    requires memory { HasMemoryFor chunks
        (min (length queue.old.reports.waiting + 1) (length queue.old.chunks.items - queue.old.done)) queue.old.reports }
    ensures reads { ReadsNextSlot D.Device chunks queue.old queue.new result }
    ensures told { IsToldOfReads G.Gate gate.now queue.old queue.new }
{
    let Some(chunk) = queue.next_chunk() else {
        return false;
    };
    gate.before_read(queue.role, chunk);
    let delivered = queue
        .reports
        .read(&mut queue.device, queue.role, queue.offset, chunks, chunk);
    gate.after_read(queue.role, chunk);
    note(rt, board, &mut queue.share, delivered);
    true
}

// Notes a slot on the board, under its lock.
fn note<L: Ledger, M: Ledger, R: Wait>(
    rt: &R,
    board: &Mutex<Board<L, M>>,
    share: &mut Share<L, M>,
    delivered: bool,
)
    requires { 0 < share.old.left }
    ensures { share.new ≡ noted share.old delivered }
{
    board.lock(rt).enter(share, delivered);
}
