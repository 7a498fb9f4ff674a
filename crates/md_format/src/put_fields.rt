// Fields written into a block of bytes. Places are in bytes.
ghost use Rattle.std.specs.Prelude.{◌≡◌, ◌+◌, ◌≤◌, ◌++◌, ◌∷◌, [], length, take, drop};
ghost use Rattle.byteorder.specs.Endian.{little_bytes};

use byteorder::{ByteOrder, LittleEndian};

/// Writes a field at a place.
pub fn put_bytes(out: &mut [u8], at: usize, field: &[u8])
    requires { at + length field.now ≤ length out.old }
    ensures whole { out.new ≡ take at out.old ++ field.now ++ drop (at + length field.now) out.old }
    ensures front { take (at + length field.now) out.new ≡ take at out.old ++ field.now }
{
    out[at..at + field.len()].copy_from_slice(field);
}

/// Writes a byte at a place.
pub fn put_u8(out: &mut [u8], at: usize, number: u8)
    requires { at + 1 ≤ length out.old }
    ensures whole { out.new ≡ take at out.old ++ (number ∷ []) ++ drop (at + 1) out.old }
    ensures front { take (at + 1) out.new ≡ take at out.old ++ (number ∷ []) }
{
    put_bytes(out, at, &[number]);
}

/// Writes a little-endian number of two bytes at a place.
pub fn put_u16(out: &mut [u8], at: usize, number: u16)
    requires { at + 2 ≤ length out.old }
    ensures whole { out.new ≡ take at out.old ++ little_bytes 2 number ++ drop (at + 2) out.old }
    ensures front { take (at + 2) out.new ≡ take at out.old ++ little_bytes 2 number }
{
    let mut field = [0; 2];
    LittleEndian::write_u16(&mut field, number);
    put_bytes(out, at, &field);
}

/// Writes a little-endian number of four bytes at a place.
pub fn put_u32(out: &mut [u8], at: usize, number: u32)
    requires { at + 4 ≤ length out.old }
    ensures whole { out.new ≡ take at out.old ++ little_bytes 4 number ++ drop (at + 4) out.old }
    ensures front { take (at + 4) out.new ≡ take at out.old ++ little_bytes 4 number }
{
    let mut field = [0; 4];
    LittleEndian::write_u32(&mut field, number);
    put_bytes(out, at, &field);
}

/// Writes a little-endian number of eight bytes at a place.
pub fn put_u64(out: &mut [u8], at: usize, number: u64)
    requires { at + 8 ≤ length out.old }
    ensures whole { out.new ≡ take at out.old ++ little_bytes 8 number ++ drop (at + 8) out.old }
    ensures front { take (at + 8) out.new ≡ take at out.old ++ little_bytes 8 number }
{
    let mut field = [0; 8];
    LittleEndian::write_u64(&mut field, number);
    put_bytes(out, at, &field);
}
