// The checksum (`calc_sb_1_csum` of the kernel's md driver).
ghost use Rattle.std.specs.Prelude.{◌≡◌, ◌<◌, ◌≤◌, ◌*◌, ◌^◌};
ghost use Rattle.md_super.specs.Checksum.{checksum_of, half_word, word_sum};

use md_format::{u16_at, u32_at};

const CHECKSUM_WORD: usize = 54;

/// The checksum of a superblock with `max_dev` roles, for which the bytes must have room; its own
/// field is taken as 0.
pub fn checksum(bytes: &[u8; 4096], max_dev: u32) -> u32
    requires { max_dev ≤ 1920 }
    ensures { result ≡ checksum_of bytes.now max_dev }
{
    let words = 64 + (max_dev / 2) as usize;
    let total = sum_of_words(bytes, words) + odd_role(bytes, max_dev);
    let low = (total % 0x1_0000_0000) as u32;
    let carries = (total / 0x1_0000_0000) as u32;
    low.wrapping_add(carries)
}

// The last role, where the superblock ends in half a word.
fn odd_role(bytes: &[u8; 4096], max_dev: u32) -> u64
    requires { max_dev ≤ 1920 }
    ensures role { result ≡ half_word bytes.now max_dev }
    ensures small { result < 2 ^ 16 }
{
    if max_dev % 2 == 1 {
        u64::from(u16_at(bytes, 256 + 2 * (max_dev - 1) as usize))
    } else {
        0
    }
}

fn sum_of_words(bytes: &[u8; 4096], count: usize) -> u64
    requires { count ≤ 1024 }
    ensures total { result ≡ word_sum bytes.now count }
    ensures small { result ≤ 1024 * 0xffff_ffff }
{
    let mut total = 0u64;
    for k in 0..count {
        if k != CHECKSUM_WORD {
            total += u64::from(u32_at(bytes, 4 * k));
        }
    }
    total
}
