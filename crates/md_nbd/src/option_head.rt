// What stands before the body of an option.
ghost use Rattle.std.specs.Prelude.{◌≡◌, IfNone, IfSome, length, ℕ};
ghost use Rattle.md_nbd.specs.Options.{option_head};

use crate::number_fields::{u32_of, u64_of};

const OPTION_MAGIC: u64 = 0x49484156454f5054;

/// How many bytes stand before the body of an option.
pub const OPTION_HEAD_BYTES: usize = 16;

/// The longest body of an option that the server takes, in bytes.
pub const LONGEST_BODY: u32 = 65536;

/// The number of an option and the length of its body in bytes, of what stands before the body; none where that is no option's.
pub fn decode_option_head(bytes: &[u8]) -> Option<(u32, u32)>
    requires { length bytes.now ≡ 16 }
    ensures found { IfSome result (λ head. bytes.now ≡ option_head head.0 head.1) }
    ensures none { IfNone result ((option size : ℕ) → bytes.now ≡ option_head option size → ⊥) }
{
    let (magic, rest) = u64_of(bytes);
    if magic != OPTION_MAGIC {
        return None;
    }
    let (option, rest) = u32_of(rest);
    let (size, _) = u32_of(rest);
    Some((option, size))
}
