// The superblock and the bitmap of the example member, by the numbers that the kernel's format gives its fields.
ghost use Rattle.std.specs.Prelude.{◌≤◌};

use md_super::checksum;

/// Puts a field at its place, as far as the block reaches.
pub fn put(bytes: &mut [u8; 4096], at: usize, field: &[u8]) {
    for (k, b) in field.iter().enumerate() {
        if let Some(place) = bytes.get_mut(at.wrapping_add(k)) {
            *place = *b;
        }
    }
}

/// The superblock of a member of a mirror of two, named vault.
pub fn vault() -> [u8; 4096] {
    let mut b = [0u8; 4096];
    put(&mut b, 0, &0xa92b_4efcu32.to_le_bytes());
    put(&mut b, 4, &1u32.to_le_bytes());
    put(&mut b, 8, &1u32.to_le_bytes());
    put(
        &mut b,
        16,
        &0x0011_2233_4455_6677_8899_aabb_ccdd_eeffu128.to_be_bytes(),
    );
    put(&mut b, 32, b"vault");
    put(&mut b, 64, &1_700_000_000u64.to_le_bytes());
    put(&mut b, 72, &1u32.to_le_bytes());
    put(&mut b, 80, &64u64.to_le_bytes());
    put(&mut b, 92, &2u32.to_le_bytes());
    put(&mut b, 96, &8u32.to_le_bytes());
    put(&mut b, 128, &2048u64.to_le_bytes());
    put(&mut b, 136, &64u64.to_le_bytes());
    put(&mut b, 144, &8u64.to_le_bytes());
    put(&mut b, 168, &[0x11u8; 16]);
    put(&mut b, 186, &8u16.to_le_bytes());
    put(&mut b, 188, &2024u32.to_le_bytes());
    put(&mut b, 192, &1_700_000_000u64.to_le_bytes());
    put(&mut b, 200, &10u64.to_le_bytes());
    put(&mut b, 208, &u64::MAX.to_le_bytes());
    put(&mut b, 216, &0x8ab7_c54fu32.to_le_bytes());
    put(&mut b, 220, &2u32.to_le_bytes());
    put(&mut b, 258, &1u16.to_le_bytes());
    b
}

/// The first 4096 bytes from the bitmap's first sector: chunk 1 is marked.
pub fn bitmap() -> [u8; 4096] {
    let mut b = [0u8; 4096];
    put(&mut b, 0, &0x6d74_6962u32.to_le_bytes());
    put(&mut b, 4, &4u32.to_le_bytes());
    put(
        &mut b,
        8,
        &0x0011_2233_4455_6677_8899_aabb_ccdd_eeffu128.to_be_bytes(),
    );
    put(&mut b, 24, &10u64.to_le_bytes());
    put(&mut b, 32, &10u64.to_le_bytes());
    put(&mut b, 40, &64u64.to_le_bytes());
    put(&mut b, 52, &4096u32.to_le_bytes());
    put(&mut b, 56, &5u32.to_le_bytes());
    put(&mut b, 256, &[2]);
    b
}

/// A superblock with the checksum that its fields and so many roles have.
pub fn seal(mut superblock: [u8; 4096], roles: u32) -> [u8; 4096]
    requires { roles ≤ 1920 }
{
    let sum = checksum(&superblock, roles);
    put(&mut superblock, 216, &sum.to_le_bytes());
    superblock
}
