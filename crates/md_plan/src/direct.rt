// Chunks that go straight from a source above a bound to one below it.
ghost use Rattle.std.specs.Prelude.{◌≡◌, ◌<◌, ◌≤◌, length, OnOk};
ghost use Rattle.md_plan.specs.Cells.{AreAllowed};
ghost use Rattle.md_plan.specs.Classes.{IsLevelled};

use crate::cell::Cell;
use crate::search::heavy;
use crate::shift::move_part;
use md_cert::{NoMemory, has_source};

// What the sources hold, and which of them are above a bound, and which below it.
#[derive(Drop)]
struct Loads {
    held: [u32; 32],
    bound: u32,
    above: u32,
    below: u32,
}

// The sources below a bound.
pub(crate) fn light(loads: &[u32], bound: u32) -> u32
    requires { length loads.now ≡ 32 }
{
    let mut sources = 0;
    for source in 0..32u32 {
        if loads[source as usize] < bound {
            sources |= 1u32 << source;
        }
    }
    sources
}

// Moves chunks from sources above a bound to those of their own sources that are below it, in one pass.
pub(crate) fn move_directly(
    cells: &mut Vec<Cell>,
    loads: &mut [u32; 32],
    bound: u32,
) -> Result<(), NoMemory>
    requires { AreAllowed cells.old.items }
    ensures { OnOk result (IsLevelled cells.old.items cells.new.items) }
{
    let mut now = Loads {
        held: *loads,
        bound,
        above: heavy(loads, bound),
        below: light(loads, bound),
    };
    'cells: for at in (0..cells.len()).rev() {
        if now.above == 0 || now.below == 0 {
            break;
        }
        hand_over(cells, at, &mut now)?;
    }
    *loads = now.held;
    Ok(())
}

// Moves as many chunks of a cell as its source is to lose and one of the others has room for.
fn hand_over(cells: &mut Vec<Cell>, at: usize, loads: &mut Loads) -> Result<(), NoMemory>
    requires within { at < length cells.old.items }
    requires allowed { AreAllowed cells.old.items }
    ensures levelled { OnOk result (IsLevelled cells.old.items cells.new.items) }
    ensures long { OnOk result (length cells.old.items ≤ length cells.new.items) }
{
    let cell = cells[at];
    let from = cell.source;
    let free = cell.mask & loads.below;
    if !has_source(loads.above, from) || free == 0 || cell.count == 0 {
        return Ok(());
    }
    let to = free.trailing_zeros();
    let room = loads.bound.saturating_sub(loads.held[to as usize]);
    let most = room.min(loads.held[from as usize].saturating_sub(loads.bound));
    if most == 0 || from == to || !has_source(cell.mask, to) {
        return Ok(());
    }
    let moved = move_part(cells, at, from, to, most)?;
    let left = loads.held[from as usize].saturating_sub(moved);
    let held = loads.held[to as usize].saturating_add(moved);
    loads.held[from as usize] = left;
    loads.held[to as usize] = held;
    if left <= loads.bound {
        loads.above &= !(1u32 << from);
    }
    if held >= loads.bound {
        loads.below &= !(1u32 << to);
    }
    Ok(())
}
