// Fields of a block of bytes as they stand, a line each.
ghost use Rattle.std.specs.Prelude.{◌≤◌, length};
ghost use Rattle.std.specs.List.{flat_map};
ghost use Rattle.md_streams.specs.Sink.{PutsOrFails};
ghost use Rattle.md_raw_reports.specs.Fields.{field_text};

use md_examine::{hex_line, hex8_line, name_line, unit_line, uuid_line};
use md_format::{array_at, u8_at, u16_at, u32_at, u64_at, uuid_at};
use md_streams::{Sink, SinkFault};

// The low 40 bits of a time.
const SECONDS: u64 = 1 << 40;

/// What a field holds, by its width, and how it is shown.
#[derive(Clone, Copy)]
pub enum Kind {
    /// A number of one byte, of two, of four and of eight.
    Byte,
    Half,
    Word,
    Long,
    /// A signed number of four bytes.
    Signed,
    /// A time of eight bytes: its low 40 bits are seconds.
    Time,
    /// A number of one byte and of four, in hex.
    HexByte,
    Hex,
    /// A number of four bytes in eight hex digits.
    HexDigits,
    /// An identifier of 16 bytes.
    Id,
    /// A name of 32 bytes.
    Name,
}

/// A field: its label, its name in an object, what it holds, the byte at which it starts, and the unit of a number that is not in
/// hex.
#[derive(Clone, Copy)]
pub struct Field<'a> {
    pub label: &'a str,
    pub name: &'a str,
    pub kind: Kind,
    pub at: u8,
    pub unit: &'a str,
}

/// The fields as they stand in a sector or more.
pub(crate) fn field_lines<S: Sink>(
    out: &mut S,
    bytes: &[u8],
    fields: &[Field],
) -> Result<(), SinkFault>
    requires { 512 ≤ length bytes.now }
    ensures { PutsOrFails S.contents S.failed out.old out.new (flat_map (field_text bytes.now) fields.now) result }
{
    for field in fields {
        field_line(out, bytes, field)?;
    }
    Ok(())
}

fn field_line<S: Sink>(out: &mut S, bytes: &[u8], field: &Field) -> Result<(), SinkFault>
    requires { 512 ≤ length bytes.now }
    ensures { PutsOrFails S.contents S.failed out.old out.new (field_text bytes.now field.now) result }
{
    let label = field.label;
    let unit = field.unit.as_bytes();
    let at = usize::from(field.at);
    match field.kind {
        Kind::Byte => unit_line(out, label, u8_at(bytes, at), unit),
        Kind::Half => unit_line(out, label, u16_at(bytes, at), unit),
        Kind::Word => unit_line(out, label, u32_at(bytes, at), unit),
        Kind::Long => unit_line(out, label, u64_at(bytes, at), unit),
        Kind::Signed => unit_line(out, label, u32_at(bytes, at).cast_signed(), unit),
        Kind::Time => unit_line(out, label, u64_at(bytes, at) % SECONDS, unit),
        Kind::HexByte => hex_line(out, label, b"0x", u32::from(u8_at(bytes, at))),
        Kind::Hex => hex_line(out, label, b"0x", u32_at(bytes, at)),
        Kind::HexDigits => hex8_line(out, label, u32_at(bytes, at)),
        Kind::Id => uuid_line(out, label, &uuid_at(bytes, at)),
        Kind::Name => name_line(out, label, &array_at(bytes, at)),
    }
}
