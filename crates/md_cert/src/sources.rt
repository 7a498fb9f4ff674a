// Masks of sources.
ghost use Rattle.std.specs.Prelude.{◌≡◌};
ghost use Rattle.md_cert.specs.Sources.{has, count_sources};

/// Whether a mask has a source. The sources are 0 to 31.
pub fn has_source(mask: u32, source: u32) -> bool
    ensures { result ≡ has mask source }
{
    source < 32 && (mask >> source) & 1 == 1
}

// How many sources a mask has.
pub(crate) fn source_count(mask: u32) -> u32
    ensures { result ≡ count_sources (has mask) }
{
    let mut count = 0;
    for source in 0..32u32 {
        if has_source(mask, source) {
            count += 1;
        }
    }
    count
}
