// Which sources may take chunks from which.
ghost use Rattle.std.specs.Prelude.{◌≡◌, ◌<◌, All, length, MatchOption};
ghost use Rattle.md_plan.specs.Search.{IsClosed, IsReach, IsStep};

use crate::cell::Cell;
use md_cert::has_source;

// Writes for each source the sources that may give a chunk that it holds.
pub(crate) fn note_reach(cells: &[Cell], reach: &mut [u32])
    requires long { length reach.old ≡ 32 }
    requires sources { All (λ c. c.source < 32) cells.now }
    ensures { IsReach cells.now reach.new }
{
    for word in reach.iter_mut() {
        *word = 0;
    }
    for cell in cells {
        if cell.count > 0 {
            reach[cell.source as usize] |= cell.mask;
        }
    }
}

// A source seen and one not seen that may give a chunk of it.
pub(crate) fn next_step(reach: &[u32], seen: u32) -> Option<(u32, u32)>
    requires { length reach.now ≡ 32 }
    ensures { MatchOption result (IsClosed reach.now seen) (λ p. IsStep reach.now seen p.0 p.1) }
{
    for from in 0..32u32 {
        if has_source(seen, from) {
            for to in 0..32u32 {
                if has_source(reach[from as usize], to) && !has_source(seen, to) {
                    return Some((from, to));
                }
            }
        }
    }
    None
}
