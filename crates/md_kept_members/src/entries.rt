// How many entries a member's log takes for a list that is not made.
ghost use Rattle.std.specs.Prelude.{◌≡◌, ◌+◌, ◌^◌, ◌<◌, ◌≤◌, drop, length, take};
ghost use Rattle.std.specs.Int.{div_ceil};
ghost use Rattle.std.specs.List.{AllByRecursion};
ghost use Rattle.md_badblocks.specs.Runs.{IsCanonical};
ghost use Rattle.md_kept_members.specs.Enrolling.{IsListAfter, IsListWith};
ghost use Rattle.md_kept_members.specs.Entries.{HasSectorsOf, Counts, TakeEntries, place_of};

use crate::member::Member;
use crate::run_counter::RunCounter;
use md_badblocks::Run;
use md_bitmap::{Chunks, Marks};

/// The first sector that no list has.
const LIMIT: u64 = 1 << 54;

/// How many entries the list takes that `list_after` makes.
pub fn entries_after(member: &Member, chunks: Chunks, copied: &Marks, orphans: &Marks) -> u64
    requires copied { copied.now.chunks ≡ div_ceil chunks.size chunks.sectors }
    requires orphans { orphans.now.chunks ≡ div_ceil chunks.size chunks.sectors }
    ensures { TakeEntries (IsListAfter chunks member.now copied.now orphans.now) result }
{
    let offset = member.superblock.data_offset;
    let first = place_of(chunks, offset, 0);
    let mut counter = count_within(member.bad.runs(), 0, first, RunCounter::new());
    for chunk in 0..copied.chunks() {
        counter = count_chunk(member, chunks, chunk, copied, orphans, counter);
    }
    let past = place_of(chunks, offset, copied.chunks());
    count_within(member.bad.runs(), past, LIMIT, counter).total()
}

/// How many entries the list takes that `list_with` makes.
pub fn entries_with(member: &Member, chunks: Chunks, chunk: u32) -> u64
    requires { chunk < div_ceil chunks.size chunks.sectors }
    ensures { TakeEntries (IsListWith chunks chunk member.now) result }
{
    let start = place_of(chunks, member.superblock.data_offset, chunk);
    let end = place_of(chunks, member.superblock.data_offset, chunk + 1);
    let runs = member.bad.runs();
    let below = count_within(runs, 0, start, RunCounter::new());
    count_within(runs, end, LIMIT, below.push(start, end)).total()
}

// Where a chunk begins on the member's device, or where the array's sectors end.
fn place_of(chunks: Chunks, offset: u64, chunk: u32) -> u64
    ensures { result ≡ place_of chunks offset chunk }
{
    let start = u64::from(chunk) * u64::from(chunks.sectors);
    offset.saturating_add(start.min(chunks.size)).min(LIMIT)
}

// Goes through a chunk: an orphan is listed, and no other one that was copied.
fn count_chunk(
    member: &Member,
    chunks: Chunks,
    chunk: u32,
    copied: &Marks,
    orphans: &Marks,
    counter: RunCounter,
) -> RunCounter
    requires copied { copied.now.chunks ≡ div_ceil chunks.size chunks.sectors }
    requires orphans { orphans.now.chunks ≡ div_ceil chunks.size chunks.sectors }
    requires chunk { chunk < div_ceil chunks.size chunks.sectors }
    requires after { counter.end ≤ place_of chunks member.now.superblock.data_offset chunk }
    ensures end { result.end ≤ place_of chunks member.now.superblock.data_offset (chunk + 1) }
    ensures counts { Counts (IsListAfter chunks member.now copied.now orphans.now) (place_of chunks member.now.superblock.data_offset chunk)
        (place_of chunks member.now.superblock.data_offset (chunk + 1)) counter result }
{
    let start = place_of(chunks, member.superblock.data_offset, chunk);
    let end = place_of(chunks, member.superblock.data_offset, chunk + 1);
    if orphans.is_marked(chunk) {
        return counter.push(start, end);
    }
    if copied.is_marked(chunk) {
        return counter;
    }
    count_within(member.bad.runs(), start, end, counter)
}

// Goes through the sectors from `from` up to `to`, of which those of the runs are listed.
fn count_within(runs: &[Run], from: u64, to: u64, counter: RunCounter) -> RunCounter
    requires canonical { IsCanonical runs.now }
    requires after { counter.end ≤ from }
    requires ordered { from ≤ to }
    requires fits { to ≤ 2 ^ 54 }
    ensures end { result.end ≤ to }
    ensures counts { Counts (HasSectorsOf runs.now from to) from to counter result }
{
    let mut next = counter;
    let first = first_ending_above(runs, from);
    for run in &runs[first..] {
        if run.start >= to {
            return next;
        }
        next = next.push(run.start.max(from), run.end().min(to));
    }
    next
}

// The place of the first run that ends above the sector.
fn first_ending_above(runs: &[Run], sector: u64) -> usize
    requires canonical { IsCanonical runs.now }
    requires fits { sector ≤ 2 ^ 54 }
    ensures bound { result ≤ length runs.now }
    ensures before { AllByRecursion (λ run. run.start + run.len < sector + 1) (take result runs.now) }
    ensures after { AllByRecursion (λ run. sector + 1 ≤ run.start + run.len) (drop result runs.now) }
{
    let limit = sector + 1;
    runs.partition_point(|run| run.end() < limit)
}
