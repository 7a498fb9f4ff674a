// Runs of bits in a list of bytes, gone over byte by byte.
ghost use Rattle.std.specs.Prelude.{◌≡◌, ◌+◌, ◌*◌, ◌≤◌, ◌<◌, ◌↔◌, ◌||◌, ◌&&◌, ℕ, cond, length, nat_le, nat_lt, true};
ghost use Rattle.std.specs.Int.{bit_at};
ghost use Rattle.md_bitmap.specs.Marks.{is_set};

// Sets the bits below `end` that are set in others.
pub fn unite_below(bits: &mut [u8], others: &[u8], end: u32)
    requires mine { end ≤ 8 * length bits.old }
    requires others { end ≤ 8 * length others.now }
    ensures len { length bits.new ≡ length bits.old }
    ensures bits { (i : ℕ) → is_set bits.new i ≡ (is_set bits.old i || (nat_lt i end && is_set others.now i)) }
{
    let whole = (end / 8) as usize;
    for k in 0..whole {
        bits[k] |= others[k];
    }
    if end % 8 > 0 {
        bits[whole] |= others[whole] & run_in_byte(whole, 0, end);
    }
}

// Sets the bits from `from` on and below `end`.
pub fn set_run(bits: &mut [u8], from: u32, end: u32)
    requires { end ≤ 8 * length bits.old }
    ensures len { length bits.new ≡ length bits.old }
    ensures bits { (i : ℕ) → is_set bits.new i ≡ (is_set bits.old i || (nat_le from i && nat_lt i end)) }
{
    for k in (from / 8) as usize..end.div_ceil(8) as usize {
        bits[k] |= run_in_byte(k, from, end);
    }
}

// Whether all bits from `from` on and below `end` are set.
pub fn has_run(bits: &[u8], from: u32, end: u32) -> bool
    requires { end ≤ 8 * length bits.now }
    ensures { (result ≡ true) ↔ ((i : ℕ) → from ≤ i → i < end → is_set bits.now i ≡ true) }
{
    for k in (from / 8) as usize..end.div_ceil(8) as usize {
        let run = run_in_byte(k, from, end);
        if bits[k] & run != run {
            return false;
        }
    }
    true
}

// The bits of byte `k` that are from `from` on and below `end`, counted from the first byte.
fn run_in_byte(k: usize, from: u32, end: u32) -> u8
    requires { k ≤ 536870912 }
    ensures { (j : ℕ) → j < 8 → bit_at result j ≡ cond (nat_le from (8 * k + j) && nat_lt (8 * k + j) end) 1 0 }
{
    let first = 8 * k as u64;
    let low = u64::from(from).saturating_sub(first).min(8);
    let high = u64::from(end).saturating_sub(first).min(8).max(low);
    ((1u16 << high) - (1u16 << low)) as u8
}
