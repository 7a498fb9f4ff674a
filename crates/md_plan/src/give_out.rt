// Chunks and rounds given out by the counts.
ghost use Rattle.std.specs.Prelude.{◌≡◌, ℕ, ◌<◌, ◌≤◌, ◌^◌, true, Bool, length, IfOk, MatchOption};
ghost use Rattle.std.specs.List.{AllWithin, HoldsAt};
ghost use Rattle.md_cert.specs.Sources.{has};
ghost use Rattle.md_cert.specs.Tables.{IsTable};
ghost use Rattle.md_cert.specs.declared.table.Row.{Row};
ghost use Rattle.md_plan.specs.Cells.{AreAllowed, count_with};
ghost use Rattle.md_plan.specs.Classes.{count_rows};
ghost use Rattle.md_plan.specs.Slots.{HasChunksOf, AreGivenOut, SomeChunk, TakesOne};

use crate::cell::Cell;
use crate::ring::{close_rings, turn_on};
use md_cert::{NoMemory, Row, Slot};
use std::alloc::Global;

// What each chunk is given.
#[derive(Drop)]
pub(crate) struct Given {
    pub slots: Vec<Slot>,
    pub orphans: Vec<u32>,
}

// The first cell from an index on with chunks of this mask.
fn first_from(cells: &[Cell], from: usize, mask: u32) -> Option<usize>
    ensures { MatchOption result (AllWithin (λ c. HasChunksOf mask c → ⊥) cells.now from (length cells.now))
        (λ at. (at < length cells.now) × HoldsAt (HasChunksOf mask) cells.now at) }
{
    let mut at = from;
    while at < cells.len() {
        if cells[at].count > 0 && cells[at].mask == mask {
            return Some(at);
        }
        at += 1;
    }
    None
}

// A cell with chunks of this mask: the one of the class whose turn it is, else any.
fn next_cell(cells: &[Cell], class: usize, mask: u32) -> usize
    requires { SomeChunk cells.now mask }
    ensures within { result < length cells.now }
    ensures chunks { HoldsAt (HasChunksOf mask) cells.now result }
{
    if class < cells.len() {
        let turn = cells[class].next as usize;
        if turn < cells.len() && cells[turn].count > 0 && cells[turn].mask == mask {
            return turn;
        }
    }
    if let Some(at) = first_from(cells, 0, mask) {
        return at;
    }
    unreachable!()
}

// Takes a chunk out of a cell.
fn take_one(cells: &mut Vec<Cell>, at: usize, mask: u32) -> u32
    requires within { at < length cells.old.items }
    requires chunks { HoldsAt (HasChunksOf mask) cells.old.items at }
    requires allowed { AreAllowed cells.old.items }
    ensures takes { TakesOne cells.old.items cells.new.items mask result }
    ensures has { has mask result ≡ true }
{
    let cell = &mut cells[at];
    cell.count -= 1;
    cell.source
}

// Gives each chunk a source and a round. The chunks of a class go to its sources in turn, as far as the counts
// allow: each to one that has given few so far, though not always the fewest. So rounds rise with the chunks nearly
// throughout, and a pass that is broken off has copied most of the chunks up to one, and few after it.
pub(crate) fn give_out(
    alloc: Global,
    rows: &[Row],
    class_of: &[u32],
    cells: &mut Vec<Cell>,
    classes: usize,
) -> Result<Given, NoMemory>
    requires table { IsTable rows.now }
    requires few { length rows.now ≤ 2 ^ 20 }
    requires allowed { AreAllowed cells.old.items }
    requires counts { (q : ℕ → Bool) → count_with q cells.old.items ≡ count_rows q rows.now }
    requires classes { length class_of.now ≡ length rows.now }
    ensures { IfOk result (λ g. AreGivenOut rows.now cells.old.items g.slots.items g.orphans.items) }
{
    let mut slots: Vec<Slot> = Vec::with_capacity(alloc, rows.len())?;
    let mut orphans: Vec<u32> = Vec::new(alloc);
    close_rings(cells, classes)?;
    let mut used = [0u32; 32];
    for (i, row) in rows.iter().enumerate() {
        if row.mask == 0 {
            orphans.push(row.chunk)?;
        } else {
            let class = class_of[i] as usize;
            let at = next_cell(cells.as_slice(), class, row.mask);
            let source = take_one(cells, at, row.mask);
            let round = used[source as usize];
            used[source as usize] = round + 1;
            turn_on(cells, &used, class, at);
            slots.push(Slot {
                chunk: row.chunk,
                source: source as u8,
                round,
            })?;
        }
    }
    Ok(Given { slots, orphans })
}
