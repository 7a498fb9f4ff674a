// The number of rounds that some sources show to be needed.
ghost use Rattle.std.specs.Prelude.{◌≡◌, ◌+◌, ◌*◌, ◌^◌, ◌<◌, ◌≤◌, length};
ghost use Rattle.md_cert.specs.Sources.{has, count_sources};
ghost use Rattle.md_plan.specs.Bounds.{is_within, sum_sources};

use md_cert::has_source;

// A number of rounds, and sources that show that one less is too few.
#[derive(Clone, Copy)]
pub(crate) struct Bound {
    pub rounds: u32,
    pub sources: u32,
}

// Whether a mask has no source but these.
pub(crate) fn has_only(mask: u32, sources: u32) -> bool
    ensures { result ≡ is_within sources mask }
{
    mask & sources == mask
}

// The least number of chunks that the fullest of some sources holds.
pub(crate) fn least_bound(loads: &[u32], sources: u32) -> u32
    requires long { length loads.now ≡ 32 }
    requires small { sum_sources sources loads.now ≤ 2 ^ 31 }
    requires some { 0 < count_sources (has sources) }
    ensures enough { sum_sources sources loads.now ≤ result * count_sources (has sources) }
    ensures needed { result * count_sources (has sources)
        < sum_sources sources loads.now + count_sources (has sources) }
{
    let mut sum = 0;
    let mut number = 0;
    for source in 0..32u32 {
        if has_source(sources, source) {
            sum += loads[source as usize];
            number += 1;
        }
    }
    (sum + number - 1) / number
}
