// The bits of a list of bytes, gone over in words of 64.
ghost use Rattle.std.specs.Prelude.{◌≡◌, ◌+◌, ◌-◌, ◌*◌, ◌≤◌, ◌++◌, IfSome, IfNone, length, take, drop, replicate};
ghost use Rattle.md_format.specs.Fields.{number_at};
ghost use Rattle.md_bitmap.specs.Marks.{IsNextSet, NoneSet, count_set, padded};

use md_format::{put_bytes, u64_at};

// How many of the bits below `end` are set.
pub fn count_below(bytes: &[u8], end: u32) -> u32
    requires { end ≤ 8 * length bytes.now }
    ensures { result ≡ count_set bytes.now end }
{
    let words = (end / 64) as usize;
    let mut total = 0;
    for k in 0..words {
        total += u64_at(bytes, 8 * k).count_ones();
    }
    let rest = end % 64;
    if rest > 0 {
        total += (word_at(bytes, 8 * words) & ((1 << rest) - 1)).count_ones();
    }
    total
}

// The first bit from `from` on and below `end` that is set.
pub fn next_below(bytes: &[u8], from: u32, end: u32) -> Option<u32>
    requires { end ≤ 8 * length bytes.now }
    ensures some { IfSome result (IsNextSet bytes.now from end) }
    ensures none { IfNone result (NoneSet bytes.now from end) }
{
    let end = end as usize;
    let mut at = from as usize;
    while at < end {
        let word = word_at(bytes, 8 * (at / 64)) >> (at % 64);
        if word != 0 {
            let found = at + word.trailing_zeros() as usize;
            return if found < end {
                Some(found as u32)
            } else {
                None
            };
        }
        at = (at / 64 + 1) * 64;
    }
    None
}

// The number in the eight bytes from a place, with zeros where the list ends.
fn word_at(bytes: &[u8], at: usize) -> u64
    requires { at ≤ length bytes.now }
    ensures { result ≡ number_at 8 at bytes.now }
{
    if bytes.len() - at >= 8 {
        return u64_at(bytes, at);
    }
    let mut word = [0; 8];
    copy_behind(&mut word, 0, bytes, at);
    u64_at(&word, 0)
}

// Copies the bytes from place `at`, as many as there are, to place `behind` of zeros.
pub fn copy_behind(out: &mut [u8], behind: usize, bytes: &[u8], at: usize)
    requires room { behind ≤ length out.old }
    requires zeros { drop behind out.old ≡ replicate (length out.old - behind) 0 }
    ensures { out.new ≡ take behind out.old ++ padded (length out.old - behind) (drop at bytes.now) }
{
    let rest = &bytes[at.min(bytes.len())..];
    let count = rest.len().min(out.len() - behind);
    put_bytes(out, behind, &rest[..count]);
}
