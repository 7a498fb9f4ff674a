// Chunks pulled along an alternating path.
ghost use Rattle.std.specs.Prelude.{◌≡◌, length, OnOk};
ghost use Rattle.md_plan.specs.Cells.{AreAllowed, AreLoads, Lightens};
ghost use Rattle.md_plan.specs.Search.{IsPath, IsReach};

use crate::cell::Cell;
use crate::shift::shift;
use md_cert::NoMemory;

// Moves chunks along the path to a source below the bound, from its end to its root.
pub(crate) fn pull(
    cells: &mut Vec<Cell>,
    loads: &mut [u32],
    reach: &[u32],
    order: &[u32],
    parent: &[u32],
    bound: u32,
    light: u32,
) -> Result<(), NoMemory>
    requires allowed { AreAllowed cells.old.items }
    requires loads { AreLoads cells.old.items loads.old }
    requires reach { IsReach cells.old.items reach.now }
    requires path { IsPath loads.old reach.now bound order.now parent.now light }
    requires order { length order.now ≡ 32 }
    requires parent { length parent.now ≡ 32 }
    ensures { OnOk result (Lightens bound cells.old.items cells.new.items loads.old loads.new) }
{
    // For the proof, which alone goes by `reach`.
    let _kept = reach.len();
    let mut to = light;
    while order[to as usize] > 0 {
        let from = parent[to as usize];
        let moved = shift(cells, from, to, bound - loads[to as usize])?;
        loads[from as usize] -= moved;
        loads[to as usize] += moved;
        to = from;
    }
    Ok(())
}
