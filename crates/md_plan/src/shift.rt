// Counts moved from one source to another.
ghost use Rattle.std.specs.Prelude.{◌≡◌, ◌≢◌, ℕ, ◌<◌, ◌≤◌, length, IfOk};
ghost use Rattle.std.specs.List.{HoldsAt};
ghost use Rattle.md_plan.specs.Cells.{CanMove, IsMovable, Moves, KeepsOtherCells};

use crate::cell::Cell;
use md_cert::{NoMemory, has_source};

// Moves up to so many chunks of a cell to another source.
pub(crate) fn move_part(
    cells: &mut Vec<Cell>,
    at: usize,
    from: u32,
    to: u32,
    most: u32,
) -> Result<u32, NoMemory>
    requires within { at < length cells.old.items }
    requires movable { HoldsAt (IsMovable from to) cells.old.items at }
    requires apart { from ≢ to }
    requires some { 0 < most }
    ensures number { IfOk result (λ n. (0 < n) × (n ≤ most)) }
    ensures moves { IfOk result (λ n. Moves cells.old.items cells.new.items from to n) }
    ensures others { IfOk result (λ n. KeepsOtherCells cells.old.items cells.new.items at) }
{
    let cell = cells[at];
    if cell.count <= most {
        let target = &mut cells[at];
        target.source = to;
        return Ok(cell.count);
    }
    let new = u32::try_from(cells.len()).unwrap_or(u32::MAX);
    cells.push(Cell {
        mask: cell.mask,
        count: most,
        source: to,
        next: cell.next,
    })?;
    let rest = &mut cells[at];
    rest.count = cell.count - most;
    rest.next = new;
    Ok(most)
}

// Moves up to so many chunks from one source to another that may give them, and says how many.
pub(crate) fn shift(cells: &mut Vec<Cell>, from: u32, to: u32, most: u32) -> Result<u32, NoMemory>
    requires movable { CanMove cells.old.items from to }
    requires apart { from ≢ to }
    requires some { 0 < most }
    ensures number { IfOk result (λ n. (0 < n) × (n ≤ most)) }
    ensures moves { IfOk result (λ n. Moves cells.old.items cells.new.items from to n) }
{
    let end = cells.len();
    let mut moved = 0;
    let mut at = 0;
    while at < end && moved < most {
        let cell = cells[at];
        if cell.count > 0 && cell.source == from && has_source(cell.mask, to) {
            moved += move_part(cells, at, from, to, most - moved)?;
        }
        at += 1;
    }
    Ok(moved)
}
