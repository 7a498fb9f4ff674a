// Classes of chunks with equal masks.
ghost use Rattle.std.specs.Prelude.{◌≡◌, ◌≢◌, ◌+◌, ◌^◌, ◌<◌, ◌≤◌, length, IfOk};
ghost use Rattle.std.specs.List.{HoldsAt};
ghost use Rattle.md_plan.specs.Classes.{AddsOne, HasClass, IsGrouped};

use crate::cell::Cell;
use crate::totals::Totals;
use md_cert::{NoMemory, Row};
use std::alloc::Global;

// The classes of a table, each as a cell, the class of each row, and the totals; a row with no source has any class.
// Several classes may have the same mask.
#[derive(Drop)]
pub(crate) struct Classes {
    pub cells: Vec<Cell>,
    pub class_of: Vec<u32>,
    pub totals: Totals,
}

// The places of the index. It is small, so that it stays in the processor's cache. In return it forgets:
// where two masks have one place, the later stands there, and the earlier gets another class when it comes again.
const PLACES: usize = 1 << 14;

// A class in the index; an empty place has the mask 0, which no class has.
#[derive(Clone, Copy)]
struct Entry {
    mask: u32,
    class: u32,
}

// What an empty place of the index has.
const EMPTY: Entry = Entry { mask: 0, class: 0 };

// The place of a mask in the index.
fn place_of(mask: u32) -> usize
    ensures { result < 2 ^ 14 }
{
    (mask.wrapping_mul(0x9e37_79b1) >> 18) as usize
}

// A class of a mask, a new one where the index has none.
fn class_for(cells: &mut Vec<Cell>, index: &mut Vec<Entry>, mask: u32) -> Result<usize, NoMemory>
    requires mask { mask ≢ 0 }
    requires index { length index.old.items ≡ 2 ^ 14 }
    requires classes { length cells.old.items < 2 ^ 21 }
    ensures index { length index.new.items ≡ 2 ^ 14 }
    ensures class { IfOk result (λ class. HasClass cells.old.items cells.new.items mask class) }
{
    let place = place_of(mask);
    let entry = index[place];
    let class = entry.class as usize;
    if entry.mask == mask && class < cells.len() && cells[class].mask == mask {
        return Ok(class);
    }
    let new = cells.len();
    index[place] = Entry {
        mask,
        class: new as u32,
    };
    cells.push(Cell {
        mask,
        count: 0,
        source: mask.trailing_zeros(),
        next: new as u32,
    })?;
    Ok(new)
}

// One chunk more of a class.
fn add_one(cells: &mut Vec<Cell>, class: usize)
    requires within { class < length cells.old.items }
    requires small { HoldsAt (λ c. c.count < 2 ^ 21) cells.old.items class }
    ensures { AddsOne cells.old.items cells.new.items class }
{
    let cell = &mut cells[class];
    cell.count += 1;
}

// The classes of the rows.
pub(crate) fn group(alloc: Global, rows: &[Row]) -> Result<Classes, NoMemory>
    requires { length rows.now ≤ 2 ^ 20 }
    ensures { IfOk result (λ c. IsGrouped rows.now c.cells.items c.class_of.items) }
{
    let mut cells: Vec<Cell> = Vec::with_capacity(alloc, rows.len() + rows.len() / 2)?;
    let mut class_of: Vec<u32> = Vec::with_capacity(alloc, rows.len())?;
    let mut index = vec![in alloc; EMPTY; PLACES]?;
    let mut last = 0usize;
    let mut totals = Totals {
        chunks: 0,
        sources: 0,
    };
    for row in rows {
        if row.mask != 0 {
            last = class_for(&mut cells, &mut index, row.mask)?;
            add_one(&mut cells, last);
            totals.add(row.mask);
        }
        class_of.push(last as u32)?;
    }
    Ok(Classes {
        cells,
        class_of,
        totals,
    })
}
