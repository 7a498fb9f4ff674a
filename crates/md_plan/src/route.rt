// The search for a way from overloaded sources to one with room, over the cells of each source.
ghost use Rattle.std.specs.Prelude.{◌≡◌, ◌≢◌, ◌<◌, length, IfSome};

use crate::cells_by_source::SourceCells;
use md_cert::has_source;

// The sources that are reached in so many steps, those with room that are reached first, and all that were seen.
#[derive(Clone, Copy)]
pub(crate) struct Route {
    pub layers: [u32; 32],
    pub found: u32,
    pub seen: u32,
}

// Goes from some sources on, until one of the others that are given is reached, or no more are.
pub(crate) fn find_route(by_source: &[SourceCells], from: u32, light: u32) -> Route
    requires { length by_source.now ≡ 32 }
{
    let mut route = Route {
        layers: [0u32; 32],
        found: 0,
        seen: from,
    };
    let mut last = from;
    for step in 0..32usize {
        if last != 0 && route.found == 0 {
            route.layers[step] = last;
            last = reached_sources(by_source, last) & !route.seen;
            route.seen |= last;
            route.found = last & light;
        }
    }
    route
}

// The sources to which some sources may hand on chunks.
fn reached_sources(by_source: &[SourceCells], from: u32) -> u32
    requires { length by_source.now ≡ 32 }
{
    let mut sources = 0;
    for source in 0..32u32 {
        if has_source(from, source) {
            sources |= by_source[source as usize].open;
        }
    }
    sources
}

// A source of a layer that may hand on chunks to another.
pub(crate) fn step_back(by_source: &[SourceCells], layer: u32, to: u32) -> Option<u32>
    requires { length by_source.now ≡ 32 }
    ensures within { IfSome result (λ from. from < 32) }
    ensures apart { IfSome result (λ from. from ≢ to) }
{
    for from in 0..32u32 {
        if from != to && has_source(layer, from) && has_source(by_source[from as usize].open, to) {
            return Some(from);
        }
    }
    None
}
