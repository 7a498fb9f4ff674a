// The check of devices that are out of their mirror.
ghost use Rattle.std.specs.Prelude.{◌≡◌, ◌*◌, ◌<◌, ◌≤◌, MatchOption, IfErr, OnOk, ℕ, length, min, None, slice_index_or, Some};
ghost use Rattle.std.specs.List.{All};
ghost use Rattle.md_check.specs.Differences.{AreCompared, IsEmpty, KeepsPairs};
ghost use Rattle.md_collect.specs.Found.{IsSized};
ghost use Rattle.md_check.specs.Readings.{MissesIn};
ghost use Rattle.md_check.specs.Readers.{AreReadersHonest, AreReadersRead, HaveNotFailed, HasDataOnDevice, ReaderShows, on_device};
ghost use Rattle.md_check.specs.Told.{IsToldOfReader};

use crate::alike::first_read;
use crate::compare::compare_window;
use crate::reader::Reader;
use crate::turn::{first_turn, turn};
use crate::window::Window;
use md_bitmap::Chunks;
use md_collect::Comparison;
use md_device::Device;
use md_streams::Gate;
use std::mem;
use std::thread::Threads;

/// How many sectors of each member are read at a time, 2 MiB: each time threads are started, and waited for.
pub(crate) const WINDOW: u64 = 4096;

/// A chunk of a member that could not be read.
#[derive(Clone, Copy)]
pub(crate) struct Missed {
    pub(crate) member: usize,
    pub(crate) chunk: u32,
}

/// Finds each chunk in which two members in sync differ in a sector that neither lists, and of each pair those in
/// which these two do, window by window: it is read and compared, and one in which not all is the same is then
/// looked through. From the second window on the first member is read a window ahead of the others, into `lead`.
/// It takes no memory.
pub(crate) fn check_lent<D: Device + Send, G: Gate + Sync, R: Threads + Sync>(
    rt: &R,
    gate: &G,
    chunks: Chunks,
    lead: &mut Vec<u8>,
    readers: &mut Vec<Reader<D>>,
    found: &mut Comparison,
) -> Result<(), Missed>
    requires read_here { All (λ reader. HasDataOnDevice D.Device chunks reader) readers.old.items }
    requires room { All (λ reader. 512 * min 4096 chunks.size ≤ length reader.bytes.items) readers.old.items }
    requires lead { 512 * min 4096 chunks.size ≤ length lead.old.items }
    requires sized { IsSized chunks found.old }
    requires none { IsEmpty found.old }
    ensures kept { KeepsPairs found.old found.new }
    ensures compared { OnOk result (AreReadersHonest D.Device readers.old.items
        → AreCompared (ReaderShows (on_device D.Device) readers.old.items) chunks chunks.size found.new) }
    ensures unfailing { OnOk result (HaveNotFailed D.Device (length readers.old.items) readers.old.items readers.new.items) }
    ensures missed { IfErr result (λ missed. MissesIn D.Device chunks readers.old.items readers.new.items missed) }
    ensures read { AreReadersRead D.Device readers.old.items readers.new.items }
    ensures told { OnOk result (All (λ reader. IsToldOfReader G.Gate gate.now chunks 0 chunks.size reader) readers.old.items) }
{
    let first = first_read(readers.as_slice()).unwrap_or(0);
    let mut from = WINDOW.min(chunks.size);
    check_first(rt, gate, chunks, from, readers, found)?;
    let mut sectors = 0;
    while from < chunks.size {
        let ahead = WINDOW.min(chunks.size - from - sectors);
        let window = Window { first, from, ahead };
        let bytes = &lead.as_slice()[..512 * sectors as usize];
        turn(rt, gate, chunks, window, bytes, readers);
        if let Some(missed) = first_missed(readers.as_slice()) {
            return Err(missed);
        }
        compare_window(readers.as_slice(), bytes, chunks, from, sectors, found);
        exchange(readers.as_mut_slice(), first, lead);
        from += sectors;
        sectors = ahead;
    }
    Ok(())
}

// Compares the first window of so many sectors alone, which is read of all members at once.
fn check_first<D: Device + Send, G: Gate + Sync, R: Threads + Sync>(
    rt: &R,
    gate: &G,
    chunks: Chunks,
    sectors: u64,
    readers: &mut Vec<Reader<D>>,
    found: &mut Comparison,
) -> Result<(), Missed>
    requires inside { sectors ≤ chunks.size }
    requires read_here { All (λ reader. HasDataOnDevice D.Device chunks reader) readers.old.items }
    requires room { All (λ reader. 512 * sectors ≤ length reader.bytes.items) readers.old.items }
    requires sized { IsSized chunks found.old }
    requires none { IsEmpty found.old }
    ensures kept { KeepsPairs found.old found.new }
    ensures compared { OnOk result (AreReadersHonest D.Device readers.old.items
        → AreCompared (ReaderShows (on_device D.Device) readers.old.items) chunks sectors found.new) }
    ensures unfailing { OnOk result (HaveNotFailed D.Device (length readers.old.items) readers.old.items readers.new.items) }
    ensures missed { IfErr result (λ missed. MissesIn D.Device chunks readers.old.items readers.new.items missed) }
    ensures read { AreReadersRead D.Device readers.old.items readers.new.items }
    ensures long { (k : ℕ) (d : _) → k < length readers.old.items
        → length (slice_index_or readers.new.items k d).bytes.items ≡ length (slice_index_or readers.old.items k d).bytes.items }
    ensures told { OnOk result (All (λ reader. IsToldOfReader G.Gate gate.now chunks 0 sectors reader) readers.old.items) }
{
    first_turn(rt, gate, chunks, sectors, readers);
    if let Some(missed) = first_missed(readers.as_slice()) {
        return Err(missed);
    }
    compare_window(readers.as_slice(), &[], chunks, 0, sectors, found);
    Ok(())
}

// What was read ahead of the first member is what the next window is compared with.
fn exchange<D>(readers: &mut [Reader<D>], first: usize, lead: &mut Vec<u8>)
    ensures len { length readers.new ≡ length readers.old }
    ensures first { (k : ℕ) (d : _) → k < length readers.old → k ≡ first
        → (slice_index_or readers.new k d ≡ record (slice_index_or readers.old k d) { bytes = lead.old }) × (lead.new ≡ (slice_index_or readers.old k d).bytes) }
    ensures others { (k : ℕ) (d : _) → k < length readers.old → (k ≡ first → ⊥) → slice_index_or readers.new k d ≡ slice_index_or readers.old k d }
    ensures none { length readers.old ≤ first → lead.new ≡ lead.old }
{
    if first < readers.len() {
        mem::swap(&mut readers[first].bytes, lead);
    }
}

// The first reader whose worker noted a chunk.
fn first_missed<D>(readers: &[Reader<D>]) -> Option<Missed>
    ensures { MatchOption result
        (All (λ reader. reader.missed ≡ None) readers.now)
        (λ missed. (missed.member < length readers.now) × ((d : _) → (slice_index_or readers.now missed.member d).missed ≡ Some missed.chunk)
        × ((k : ℕ) (d : _) → k < missed.member → (slice_index_or readers.now k d).missed ≡ None)) }
{
    for k in 0..readers.len() {
        if let Some(chunk) = readers[k].missed {
            return Some(Missed { member: k, chunk });
        }
    }
    None
}
