// The values of a report that are no plain numbers.
ghost use Rattle.std.specs.Prelude.{◌≡◌, ◌≤◌, ◌==◌, not, length, map, take};
ghost use Rattle.std.specs.List.{take_while};
ghost use Rattle.md_examine.specs.Lines.{shown_byte, hex8_text};

/// How many bytes of a name stand before its first zero byte.
pub fn name_len(name: &[u8; 32]) -> usize
    ensures len { result ≡ length (take_while (λ b. not (b == 0)) name.now) }
    ensures fits { result ≤ 32 }
{
    name.iter().take_while(|b| **b != 0).count()
}

/// The bytes of a name, `?` for those that can't be shown.
pub fn shown_bytes(name: &[u8; 32]) -> [u8; 32]
    ensures { result ≡ map shown_byte name.now }
{
    name.map(shown_byte)
}

fn shown_byte(b: u8) -> u8
    ensures { result ≡ shown_byte b }
{
    if (0x20..=0x7e).contains(&b) { b } else { b'?' }
}

/// Eight hex digits.
#[tactic(auto, unfolding(crate::specs::Lines::hex8_text))]
pub fn hex_digits(n: u32) -> [u8; 8]
    ensures digits { result ≡ hex8_text n }
    ensures len { length result ≡ 8 }
{
    let mut digits = [0; 8];
    hex::encode_to_slice(n.to_be_bytes().as_slice(), &mut digits).unwrap();
    digits
}

// How many zeros stand before the first other digit, or before the last digit.
pub(crate) fn zeros_in_front(digits: &[u8; 8]) -> usize
    ensures len { result ≡ length (take_while (λ d. d == 48) (take 7 digits.now)) }
    ensures fits { result ≤ 7 }
{
    digits[..7].iter().take_while(|d| **d == b'0').count()
}
