// Sizes that words say.
ghost use Rattle.std.specs.Prelude.{◌≡◌, ◌<◌, option_map};
ghost use Rattle.md_words.specs.Numbers.{before, kib_in, number_and_unit, sectors_in, total_of};

const SECTORS_OF_KIB: u64 = 2;

// In KiB.
const MIB: u64 = 1 << 10;

const GIB: u64 = 1 << 20;

const TIB: u64 = 1 << 30;

// What stands before a letter that ends a text, where one does.
fn before<'a>(text: &'a str, letter: char) -> Option<&'a str>
    requires ascii { letter < 128 }
    ensures { option_map (λ s. s.now) result ≡ before letter text.entry.now }
{
    text.strip_suffix(letter)
}

// The number of a size, and its unit, which mdadm(8) has as a suffix, in units of which a KiB has this many.
fn number_and_unit(text: &str, kib: u64) -> (&str, u64)
    requires few { kib < 1024 }
    ensures { (result.0.now, result.1) ≡ number_and_unit kib text.now }
{
    if let Some(number) = before(text, 'K') {
        (number, kib)
    } else if let Some(number) = before(text, 'M') {
        (number, MIB * kib)
    } else if let Some(number) = before(text, 'G') {
        (number, GIB * kib)
    } else if let Some(number) = before(text, 'T') {
        (number, TIB * kib)
    } else {
        (text, 1)
    }
}

// So many units.
fn total_of(number: &str, unit: u64) -> Option<u64>
    ensures { result ≡ total_of 64 (number.now, unit) }
{
    match number.parse::<u64>() {
        Ok(units) => units.checked_mul(unit),
        Err(_) => None,
    }
}

/// The KiB of a size, if the text says one of 64 bits.
#[tactic(auto, unfolding(crate::specs::Numbers::kib_in))]
pub(crate) fn u64_kib(text: &str) -> Option<u64>
    ensures { result ≡ kib_in 64 text.now }
{
    let (number, unit) = number_and_unit(text, 1);
    total_of(number, unit)
}

/// The KiB of a size, if the text says one of 32 bits.
#[tactic(auto, unfolding(crate::specs::Numbers::kib_in))]
pub(crate) fn u32_kib(text: &str) -> Option<u32>
    ensures { result ≡ kib_in 32 text.now }
{
    match u64_kib(text) {
        Some(kib) if kib <= u32::MAX as u64 => Some(kib as u32),
        _ => None,
    }
}

/// The sectors that a text says, if it says so many that 64 bits have room for the number: as a number of them, or as a size
/// with a suffix.
#[tactic(auto, unfolding(crate::specs::Numbers::sectors_in))]
pub(crate) fn u64_sectors(text: &str) -> Option<u64>
    ensures { result ≡ sectors_in text.now }
{
    let (number, unit) = number_and_unit(text, SECTORS_OF_KIB);
    total_of(number, unit)
}
