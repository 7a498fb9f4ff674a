// Loads levelled before `balance`: each source's cells stand in a list of its own, so that chunks move on
// along many alternating paths without a pass over all cells for each.
ghost use Rattle.std.specs.Prelude.{◌≡◌, ◌≢◌, length, OnOk};
ghost use Rattle.md_plan.specs.Cells.{AreAllowed};
ghost use Rattle.md_plan.specs.Classes.{IsLevelled};

use crate::cell::Cell;
use crate::cells_by_source::{SourceCells, hand_on, list_by_source};
use crate::direct::{light, move_directly};
use crate::route::{Route, find_route, step_back};
use crate::search::heavy;
use md_cert::{NoMemory, has_source};
use std::alloc::Global;

// How many paths are taken at most.
const PATHS: u32 = 1 << 16;

// Levels the loads, as far as the paths suffice. Like the first choice of sources, this decides only how
// much is left for `balance`. No clause says that the bound here is the least: `balance` finds it anew.
pub(crate) fn level(
    alloc: Global,
    cells: &mut Vec<Cell>,
    loads: [u32; 32],
    sources: u32,
) -> Result<(), NoMemory>
    requires { AreAllowed cells.old.items }
    ensures { OnOk result (IsLevelled cells.old.items cells.new.items) }
{
    let mut loads = loads;
    let mut bound = mean_load(&loads, sources);
    move_directly(cells, &mut loads, bound)?;
    if heavy(&loads, bound) == 0 {
        return Ok(());
    }
    let mut by_source = list_by_source(alloc, cells)?;
    'paths: for _ in 0..PATHS {
        let above = heavy(&loads, bound);
        if above == 0 {
            return Ok(());
        }
        let route = find_route(&by_source, above, light(&loads, bound));
        if route.found == 0 {
            bound = mean_load(&loads, route.seen);
        } else {
            carry(cells, &mut by_source, &mut loads, &route, bound)?;
        }
    }
    Ok(())
}

// What each of some sources holds on average, rounded up.
fn mean_load(loads: &[u32], sources: u32) -> u32
    requires { length loads.now ≡ 32 }
{
    let mut sum = 0u64;
    for source in 0..32u32 {
        if has_source(sources, source) {
            sum = sum.saturating_add(u64::from(loads[source as usize]));
        }
    }
    let number = u64::from(sources.count_ones()).max(1);
    u32::try_from(sum.div_ceil(number)).unwrap_or(u32::MAX)
}

// What the source at which a route begins holds above the bound.
fn excess_at_root(by_source: &[SourceCells], loads: &[u32], route: &Route, bound: u32) -> u32
    requires by_source { length by_source.now ≡ 32 }
    requires loads { length loads.now ≡ 32 }
    requires found { route.now.found ≢ 0 }
{
    let mut root = route.found.trailing_zeros();
    'steps: for step in (0..32usize).rev() {
        if let Some(from) = step_back(by_source, route.layers[step], root) {
            root = from;
        }
    }
    loads[root as usize].saturating_sub(bound)
}

// Moves chunks along a route, from its end to its root: as many as the end has room for and the root is to lose.
fn carry(
    cells: &mut Vec<Cell>,
    by_source: &mut Vec<SourceCells>,
    loads: &mut [u32],
    route: &Route,
    bound: u32,
) -> Result<(), NoMemory>
    requires allowed { AreAllowed cells.old.items }
    requires by_source { length by_source.old.items ≡ 32 }
    requires loads { length loads.old ≡ 32 }
    requires found { route.now.found ≢ 0 }
    ensures levelled { OnOk result (IsLevelled cells.old.items cells.new.items) }
    ensures by_source { length by_source.new.items ≡ 32 }
{
    let mut to = route.found.trailing_zeros();
    let room = bound.saturating_sub(loads[to as usize]);
    let mut most = room.min(excess_at_root(by_source, loads, route, bound));
    'steps: for step in (0..32usize).rev() {
        if most > 0 {
            if let Some(from) = step_back(by_source, route.layers[step], to) {
                most = hand_on(cells, by_source, from, to, most)?;
                loads[from as usize] = loads[from as usize].saturating_sub(most);
                loads[to as usize] = loads[to as usize].saturating_add(most);
                to = from;
            }
        }
    }
    Ok(())
}
