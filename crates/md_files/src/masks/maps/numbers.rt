// Numbers as a map writes them.
ghost use Rattle.std.specs.Prelude.{◌≡◌, ◌==◌, ◌≤◌, slice_index};
ghost use Rattle.md_files.specs.Masks.Maps.Numbers.{is_hexadecimal, numeral, number_of};

/// The number that a field writes, as an integer constant of C++ does.
#[tactic(auto, unfolding(crate::specs::Masks::Maps::Numbers::number_of))]
pub(crate) fn number_of(field: &[u8]) -> Option<u64>
    ensures { result ≡ number_of field.now }
{
    if is_hexadecimal(field) {
        return numeral(&field[2..], 16);
    }
    if matches!(field, [b'0', ..]) {
        return numeral(field, 8);
    }
    numeral(field, 10)
}

fn is_hexadecimal(field: &[u8]) -> bool
    ensures { result ≡ is_hexadecimal field.now }
{
    matches!(field, [b'0', b'x' | b'X', ..])
}

/// The number that digits write in a radix, where it is below 2^64.
pub(crate) fn numeral(digits: &[u8], radix: u32) -> Option<u64>
    requires low { 2 ≤ radix }
    requires high { radix ≤ 36 }
    ensures { result ≡ numeral radix digits.now }
{
    // `from_str_radix` takes a sign.
    if begins_with_plus(digits) {
        return None;
    }
    let digits = str::from_utf8(digits).ok()?;
    u64::from_str_radix(digits, radix).ok()
}

fn begins_with_plus(digits: &[u8]) -> bool
    ensures { result ≡ (slice_index digits.now 0 == 43) }
{
    matches!(digits, [b'+', ..])
}
