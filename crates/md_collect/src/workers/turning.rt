// A turn: each queue's worker reads chunks.
ghost use Rattle.std.specs.Prelude.{◌≡◌, ◌+◌, ◌-◌, ◌<◌, ◌≤◌, length, min, ℕ, slice_index_or};
ghost use Rattle.std.specs.List.{All};
ghost use Rattle.md_collect.specs.Workers.Gates.{IsToldOfReads};
ghost use Rattle.md_collect.specs.Workers.Queues.{IsReadyForTurn, HasWorked};

use crate::workers::board::Board;
use crate::workers::queue::{Queue, work};
use md_bitmap::Chunks;
use md_device::Device;
use md_streams::Gate;
use std::sync::ledger::Ledger;
use std::sync::{Mutex, Wait};
use std::thread;
use std::thread::Threads;

/// Each queue reads its next chunks, so many or as many as there are, in a worker of its own: the list of queues
/// is halved until each thread has one. With one queue no thread is started, and where the system starts none
/// they go one after another. The queues have memory for what is read.
pub fn turn<
    D: Device + Send,
    G: Gate + Sync,
    L: Ledger + Send + Sync,
    M: Ledger + Send + Sync,
    R: Threads + Wait + Sync,
>(
    rt: &R,
    gate: &G,
    board: &Mutex<Board<L, M>>,
    chunks: Chunks,
    most: usize,
    queues: &mut Vec<Queue<D, L, M>>,
)
    requires { All (λ queue. IsReadyForTurn D.Device chunks most queue) queues.old.items }
    ensures len { length queues.new.items ≡ length queues.old.items }
    ensures worked { (k : ℕ) (d : _) → k < length queues.old.items
        → HasWorked D.Device chunks most (slice_index_or queues.old.items k d) (slice_index_or queues.new.items k d) }
    ensures told { (k : ℕ) (d : _) → k < length queues.old.items
        → IsToldOfReads G.Gate gate.now (slice_index_or queues.old.items k d) (slice_index_or queues.new.items k d) }
{
    let threads = queues.len().max(1);
    thread::for_each_mut(
        rt,
        queues.as_mut_slice(),
        threads,
        &|_, queue| work(rt, gate, board, chunks, most, queue),
    );
}
