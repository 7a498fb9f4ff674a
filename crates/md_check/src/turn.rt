// A turn: each member is read by a worker of its own.
ghost use Rattle.std.specs.Prelude.{◌≡◌, ◌+◌, ◌*◌, ◌/◌, ◌%◌, ◌<◌, ◌≤◌, [], ℕ, None, length, slice_index_or};
ghost use Rattle.std.specs.List.{All};
ghost use Rattle.md_check.specs.Readings.{HasLed, HasTurned, IsLead};
ghost use Rattle.md_check.specs.Readers.{HasDataOnDevice};
ghost use Rattle.md_check.specs.Told.{IsToldOfReader};

use crate::reader::Reader;
use crate::window::Window;
use crate::work::{begin, work};
use md_bitmap::Chunks;
use md_device::Device;
use md_streams::Gate;
use std::thread;
use std::thread::Threads;

/// The window is read of each member but the first one, and compared with `lead`, which was read of that one; and the next
/// window is read of the first member. Each has a worker of its own: the list of readers is halved until each thread has
/// one. Where the system starts no thread they go one after another.
pub(crate) fn turn<D: Device + Send, G: Gate + Sync, R: Threads + Sync>(
    rt: &R,
    gate: &G,
    chunks: Chunks,
    window: Window,
    lead: &[u8],
    readers: &mut Vec<Reader<D>>,
)
    requires whole { length lead.now % 512 ≡ 0 }
    requires inside { window.from + length lead.now / 512 + window.ahead ≤ chunks.size }
    requires room { All (λ reader. length lead.now ≤ length reader.bytes.items) readers.old.items }
    requires ahead { All (λ reader. 512 * window.ahead ≤ length reader.bytes.items) readers.old.items }
    requires read_here { All (λ reader. HasDataOnDevice D.Device chunks reader) readers.old.items }
    requires lead { (k : ℕ) (d : _) → k < length readers.old.items → k ≡ window.first
        → IsLead D.Device window.from lead.now (slice_index_or readers.old.items k d) }
    ensures len { length readers.new.items ≡ length readers.old.items }
    ensures turned { (k : ℕ) (d : _) → k < length readers.old.items
        → HasTurned D.Device chunks window.from (length lead.now / 512) (length lead.now / 512 + window.ahead) lead.now
        (slice_index_or readers.old.items k d) (slice_index_or readers.new.items k d) }
    ensures led { (k : ℕ) (d : _) → k < length readers.old.items → k ≡ window.first
        → HasLed D.Device (window.from + length lead.now / 512) window.ahead
        (slice_index_or readers.old.items k d) (slice_index_or readers.new.items k d) }
    ensures told { (k : ℕ) (d : _) → k < length readers.old.items → (k ≡ window.first → ⊥)
        → (slice_index_or readers.new.items k d).missed ≡ None
        → IsToldOfReader G.Gate gate.now chunks window.from (length lead.now / 512) (slice_index_or readers.old.items k d) }
    ensures told_ahead { (k : ℕ) (d : _) → k < length readers.old.items → k ≡ window.first
        → (slice_index_or readers.new.items k d).missed ≡ None
        → IsToldOfReader G.Gate gate.now chunks (window.from + length lead.now / 512) window.ahead
        (slice_index_or readers.old.items k d) }
{
    let threads = readers.len().max(1);
    thread::for_each_mut(
        rt,
        readers.as_mut_slice(),
        threads,
        &|k, reader| work(gate, chunks, window, lead, k, reader),
    );
}

/// The first window of so many sectors is read of all members at once.
pub(crate) fn first_turn<D: Device + Send, G: Gate + Sync, R: Threads + Sync>(
    rt: &R,
    gate: &G,
    chunks: Chunks,
    sectors: u64,
    readers: &mut Vec<Reader<D>>,
)
    requires inside { sectors ≤ chunks.size }
    requires room { All (λ reader. 512 * sectors ≤ length reader.bytes.items) readers.old.items }
    requires read_here { All (λ reader. HasDataOnDevice D.Device chunks reader) readers.old.items }
    ensures len { length readers.new.items ≡ length readers.old.items }
    ensures turned { (k : ℕ) (d : _) → k < length readers.old.items
        → HasTurned D.Device chunks 0 sectors sectors [] (slice_index_or readers.old.items k d) (slice_index_or readers.new.items k d) }
    ensures told { (k : ℕ) (d : _) → k < length readers.old.items → (slice_index_or readers.new.items k d).missed ≡ None
        → IsToldOfReader G.Gate gate.now chunks 0 sectors (slice_index_or readers.old.items k d) }
{
    let threads = readers.len().max(1);
    thread::for_each_mut(
        rt,
        readers.as_mut_slice(),
        threads,
        &|_, reader| begin(gate, chunks, sectors, reader),
    );
}
