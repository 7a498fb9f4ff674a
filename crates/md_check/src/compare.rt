// What was read of a window is compared.
ghost use Rattle.std.specs.Prelude.{◌≡◌, ◌+◌, ◌-◌, ◌*◌, ◌<◌, ◌≤◌, ◌↔◌, ℕ, MatchOption, is_some, length, slice_get, Some, true};
ghost use Rattle.std.specs.List.{All};
ghost use Rattle.md_device.specs.Splice.{part};
ghost use Rattle.md_badblocks.specs.Runs.{IsBad};
ghost use Rattle.md_check.specs.Differences.{AddsCompared, AddsToPair, AddsToPairs, DifferBetween, DifferIn};
ghost use Rattle.md_collect.specs.Found.{IsPairSized, IsSized};
ghost use Rattle.md_check.specs.Readers.{ReaderShows, in_window, shown_of};
ghost use Rattle.md_check.specs.Showing.{DifferAt};

use crate::alike::are_alike;
use crate::reader::Reader;
use md_bitmap::Chunks;
use md_collect::{Comparison, Pair};

impl<D> Reader<D> {
    // Whether the member is in sync and does not list the sector.
    fn shows(&self, sector: u64) -> bool
        ensures { (result ≡ true) ↔ ((is_some self.now.role ≡ true) × (IsBad self.now.listed sector → ⊥)) }
    {
        self.role.is_some() && !self.listed.meets(sector, 1)
    }

    // What was read of the window, of which these bytes were read of the first member.
    fn shown_bytes<'a>(&'a self, lead: &'a [u8]) -> &'a [u8]
        ensures { result.now ≡ shown_of lead.now self.now }
    {
        if self.alike {
            lead
        } else {
            self.bytes.as_slice()
        }
    }
}

/// Finds each chunk in which two members in sync differ in a sector of the window that neither lists, and of each
/// pair those in which these two do. Of the window `lead` was read of the first member. Where all readers are alike
/// there is none.
pub(crate) fn compare_window<D>(
    readers: &[Reader<D>],
    lead: &[u8],
    chunks: Chunks,
    from: u64,
    sectors: u64,
    found: &mut Comparison,
)
    requires inside { from + sectors ≤ chunks.size }
    requires size { All (λ reader. 512 * sectors ≤ length (shown_of lead.now reader)) readers.now }
    requires sized { IsSized chunks found.old }
    ensures { AddsCompared (ReaderShows (in_window lead.now from) readers.now) chunks from (from + sectors)
        found.old found.new }
{
    if are_alike(readers) {
        return;
    }
    for at in 0..sectors {
        if differ_in(readers, lead, from, from + at) {
            found.chunks.mark(chunks.chunk_of(from + at));
            mark_pairs(readers, lead, chunks, from, from + at, &mut found.pairs);
        }
    }
}

// Marks the chunk of this sector in each pair whose members differ in it.
fn mark_pairs<D>(
    readers: &[Reader<D>],
    lead: &[u8],
    chunks: Chunks,
    from: u64,
    sector: u64,
    pairs: &mut Vec<Pair>,
)
    requires from { from ≤ sector }
    requires below { sector < chunks.size }
    requires inside { All (λ reader. 512 * (sector - from) + 512 ≤ length (shown_of lead.now reader)) readers.now }
    requires sized { All (IsPairSized chunks) pairs.old.items }
    ensures { AddsToPairs (ReaderShows (in_window lead.now from) readers.now) chunks sector (sector + 1)
        pairs.old.items pairs.new.items }
{
    for p in 0..pairs.len() {
        mark_pair(readers, lead, chunks, from, sector, &mut pairs[p]);
    }
}

// Marks it in one pair. Where the chunk is marked already, nothing is compared.
fn mark_pair<D>(
    readers: &[Reader<D>],
    lead: &[u8],
    chunks: Chunks,
    from: u64,
    sector: u64,
    pair: &mut Pair,
)
    requires from { from ≤ sector }
    requires below { sector < chunks.size }
    requires inside { All (λ reader. 512 * (sector - from) + 512 ≤ length (shown_of lead.now reader)) readers.now }
    requires sized { IsPairSized chunks pair.old }
    ensures { AddsToPair (ReaderShows (in_window lead.now from) readers.now) chunks sector (sector + 1)
        pair.old pair.new }
{
    let chunk = chunks.chunk_of(sector);
    if pair.chunks.is_marked(chunk) {
        return;
    }
    if differ_between(readers, lead, from, sector, pair.one, pair.other) {
        pair.chunks.mark(chunk);
    }
}

// Whether these two members are in sync and differ in a sector of the window that neither lists.
fn differ_between<D>(
    readers: &[Reader<D>],
    lead: &[u8],
    from: u64,
    sector: u64,
    one: usize,
    other: usize,
) -> bool
    requires from { from ≤ sector }
    requires inside { All (λ reader. 512 * (sector - from) + 512 ≤ length (shown_of lead.now reader)) readers.now }
    ensures { (result ≡ true)
        ↔ DifferBetween (ReaderShows (in_window lead.now from) readers.now) one other sector }
{
    if one >= readers.len() || other >= readers.len() {
        return false;
    }
    do_differ(&readers[one], &readers[other], lead, from, sector)
}

// Whether both members are in sync, neither lists the sector of the window, and they differ in it.
fn do_differ<D>(one: &Reader<D>, other: &Reader<D>, lead: &[u8], from: u64, sector: u64) -> bool
    requires from { from ≤ sector }
    requires one { 512 * (sector - from) + 512 ≤ length (shown_of lead.now one.now) }
    requires other { 512 * (sector - from) + 512 ≤ length (shown_of lead.now other.now) }
    ensures { (result ≡ true) ↔ DifferAt lead.now from sector one.now other.now }
{
    if !one.shows(sector) {
        return false;
    }
    if !other.shows(sector) {
        return false;
    }
    let at = 512 * (sector - from) as usize;
    !is_same(one, other, lead, at)
}

// Whether two members in sync differ in a sector of the window that neither lists.
fn differ_in<D>(readers: &[Reader<D>], lead: &[u8], from: u64, sector: u64) -> bool
    requires from { from ≤ sector }
    requires inside { All (λ reader. 512 * (sector - from) + 512 ≤ length (shown_of lead.now reader)) readers.now }
    ensures { (result ≡ true) ↔ DifferIn (ReaderShows (in_window lead.now from) readers.now) sector }
{
    let Some(first) = first_showing(readers, sector) else {
        return false;
    };
    let at = 512 * (sector - from) as usize;
    for k in 0..readers.len() {
        if readers[k].shows(sector) && !is_same(&readers[first], &readers[k], lead, at) {
            return true;
        }
    }
    false
}

// The first reader whose member is in sync and does not list the sector.
fn first_showing<D>(readers: &[Reader<D>], sector: u64) -> Option<usize>
    ensures { MatchOption result
        ((k : ℕ) (reader : Reader D) → slice_get readers.now k ≡ Some reader → is_some reader.role ≡ true → (IsBad reader.listed sector → ⊥) → ⊥)
        (λ k. (reader : Reader D) × (slice_get readers.now k ≡ Some reader) × (is_some reader.role ≡ true) × (IsBad reader.listed sector → ⊥)) }
{
    for k in 0..readers.len() {
        if readers[k].shows(sector) {
            return Some(k);
        }
    }
    None
}

// Whether the same was read of two members in the sector at this place of the window.
fn is_same<D>(one: &Reader<D>, other: &Reader<D>, lead: &[u8], at: usize) -> bool
    requires one { at + 512 ≤ length (shown_of lead.now one.now) }
    requires other { at + 512 ≤ length (shown_of lead.now other.now) }
    ensures { (result ≡ true) ↔ (part (shown_of lead.now one.now) at 512 ≡ part (shown_of lead.now other.now) at 512) }
{
    one.shown_bytes(lead)[at..at + 512] == other.shown_bytes(lead)[at..at + 512]
}
