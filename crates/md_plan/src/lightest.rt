// The source that holds the fewest chunks.
ghost use Rattle.std.specs.Prelude.{◌≡◌, ◌≢◌, true, length};
ghost use Rattle.md_cert.specs.Sources.{has};

// The source of a mask that holds the fewest chunks.
pub(crate) fn lightest(mask: u32, loads: &[u32]) -> u32
    requires some { mask ≢ 0 }
    requires long { length loads.now ≡ 32 }
    ensures { has mask result ≡ true }
{
    let mut best = mask.trailing_zeros();
    let mut fewest = loads[best as usize];
    let mut rest = mask & (mask - 1);
    while rest != 0 {
        let source = rest.trailing_zeros();
        let held = loads[source as usize];
        if held < fewest {
            best = source;
            fewest = held;
        }
        rest &= rest - 1;
    }
    best
}
