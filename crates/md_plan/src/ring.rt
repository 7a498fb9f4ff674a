// The cells of a class in a ring, so that its sources give its chunks in turn.
ghost use Rattle.std.specs.Prelude.{OnOk};
ghost use Rattle.md_plan.specs.Slots.{HoldAsMuch};

use crate::cell::Cell;
use md_cert::{NoMemory, has_source};

// What a way round a ring has found: the cell before the next one, the first cell whose source has given the
// fewest chunks, how many those are, and the sources that were met.
#[derive(Drop)]
struct Search {
    before: usize,
    best: u32,
    fewest: u32,
    seen: u32,
}

// Closes the ring of each class that was parted. So far it goes through the class's own cell. Now what that one
// holds goes to a new cell of the ring, and the class's own cell leads to the one whose turn it is: at first to that
// new one.
pub(crate) fn close_rings(cells: &mut Vec<Cell>, classes: usize) -> Result<(), NoMemory>
    ensures { OnOk result (HoldAsMuch cells.old.items cells.new.items) }
{
    'parts: for at in classes..cells.len() {
        let class = next_of(cells.as_slice(), at);
        if (class as usize) < classes {
            let new = u32::try_from(cells.len()).unwrap_or(u32::MAX);
            move_out(cells, class as usize)?;
            link(cells, at, new);
            link(cells, class as usize, new);
        }
    }
    Ok(())
}

// Moves what a cell holds to a new one.
fn move_out(cells: &mut Vec<Cell>, at: usize) -> Result<(), NoMemory>
    ensures { OnOk result (HoldAsMuch cells.old.items cells.new.items) }
{
    if at < cells.len() {
        let cell = cells[at];
        cells.push(cell)?;
        cells[at] = Cell {
            mask: cell.mask,
            count: 0,
            source: cell.source,
            next: cell.next,
        };
    }
    Ok(())
}

// Lets a cell lead to another one.
fn link(cells: &mut Vec<Cell>, at: usize, next: u32)
    ensures { HoldAsMuch cells.old.items cells.new.items }
{
    if at < cells.len() {
        let cell = &mut cells[at];
        cell.next = next;
    }
}

// Puts the chunks of a cell to those of another one of its mask and source.
fn join(cells: &mut Vec<Cell>, to: usize, at: usize)
    ensures { HoldAsMuch cells.old.items cells.new.items }
{
    if to < cells.len() && at < cells.len() && to != at {
        let first = cells[to];
        let second = cells[at];
        if first.mask == second.mask
            && first.source == second.source
            && let Some(count) = first.count.checked_add(second.count)
        {
            cells[to] = Cell {
                mask: first.mask,
                count,
                source: first.source,
                next: first.next,
            };
            cells[at] = Cell {
                mask: second.mask,
                count: 0,
                source: second.source,
                next: second.next,
            };
        }
    }
}

// The cell to which a cell leads.
fn next_of(cells: &[Cell], at: usize) -> u32 {
    match cells.get(at) {
        Some(cell) => cell.next,
        None => u32::MAX,
    }
}

// How many chunks a source has given.
fn given_by(used: &[u32], source: u32) -> u32 {
    used.get(source as usize).copied().unwrap_or(u32::MAX)
}

// Once this cell gave a chunk of a class: the turn goes on to the next cell, if that one's source has given no
// more, and else to the one whose source has given the fewest. The class's own cell gives only where it is alone.
#[inline]
pub(crate) fn turn_on(cells: &mut Vec<Cell>, used: &[u32], class: usize, at: usize)
    ensures { HoldAsMuch cells.old.items cells.new.items }
{
    if at == class {
        return;
    }
    let next = next_of(cells.as_slice(), at);
    if let Some(gave) = cells.get(at)
        && let Some(cell) = cells.get(next as usize)
        && cell.count > 0
    {
        if given_by(used, cell.source) <= given_by(used, gave.source) {
            link(cells, class, next);
            return;
        }
        if gave.count > 0 && cell.next as usize == at {
            return;
        }
    }
    let fewest = find_fewest(cells, used, at);
    link(cells, class, fewest);
}

// The cell of a ring whose source has given the fewest, the first such one after this cell. Those with no
// chunks leave the ring on the way, and those of one source are joined. It stands apart, so that the loop
// over the chunks stays short.
#[inline(never)]
fn find_fewest(cells: &mut Vec<Cell>, used: &[u32], from: usize) -> u32
    ensures { HoldAsMuch cells.old.items cells.new.items }
{
    let mut search = Search {
        before: from,
        best: next_of(cells.as_slice(), from),
        fewest: u32::MAX,
        seen: 0,
    };
    'ring: for _ in 0..cells.len() {
        if look_on(cells, used, from, &mut search) {
            break;
        }
    }
    search.best
}

// Looks at the next cell of a ring, and says whether it is the last one.
fn look_on(cells: &mut Vec<Cell>, used: &[u32], from: usize, search: &mut Search) -> bool
    ensures { HoldAsMuch cells.old.items cells.new.items }
{
    let next = next_of(cells.as_slice(), search.before);
    let at = next as usize;
    if at >= cells.len() {
        return true;
    }
    let cell = cells[at];
    let met = has_source(search.seen, cell.source);
    if met && cell.count > 0 {
        let first = find_source(cells.as_slice(), from, cell.source);
        join(cells, first, at);
    }
    if met || cell.count == 0 {
        link(cells, search.before, cell.next);
    } else {
        if cell.source < 32 {
            search.seen |= 1u32 << cell.source;
        }
        let given = given_by(used, cell.source);
        if given < search.fewest {
            search.best = next;
            search.fewest = given;
        }
        search.before = at;
    }
    at == from
}

// The first cell after this one in the ring that has chunks of a source.
fn find_source(cells: &[Cell], from: usize, source: u32) -> usize {
    let mut at = next_of(cells, from) as usize;
    for _ in 0..cells.len() {
        if let Some(cell) = cells.get(at)
            && (cell.source != source || cell.count == 0)
        {
            at = cell.next as usize;
        } else {
            break;
        }
    }
    at
}
