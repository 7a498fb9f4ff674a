// Fields of a block of bytes as they stand, and lists of which some elements are left out.
ghost use Rattle.std.specs.Prelude.{◌≡◌, ◌≤◌, ◌||◌, ◌++◌, [], if◌then◌else◌, length, map};
ghost use Rattle.json.specs.Print.{quoted};
ghost use Rattle.serde_json.specs.Written.{comma_if, compact_text};
ghost use Rattle.md_streams.specs.Sink.{PutsOrFails};
ghost use Rattle.md_report.specs.AsJson.Objects.{later_text, next_text};
ghost use Rattle.md_raw_reports.specs.RawJson.RawFields.{table_field, value_of};

use crate::fields::{Field, Kind};
use md_examine::hex_digits;
use md_format::{array_at, u8_at, u16_at, u32_at, u64_at, uuid_at};
use md_report::as_json::values::{
    comma_if, next_name, next_number, next_signed, next_text, next_uuid,
};
use md_report::put_quoted;
use md_streams::{Sink, SinkFault};

// The low 40 bits of a time.
const SECONDS: u64 = 1 << 40;

/// The fields of a table, as they stand in a sector or more.
pub(crate) fn next_fields<S: Sink>(
    out: &mut S,
    bytes: &[u8],
    fields: &[Field],
) -> Result<(), SinkFault>
    requires { 512 ≤ length bytes.now }
    ensures { PutsOrFails S.contents S.failed out.old out.new
        (later_text (map (table_field bytes.now) fields.now)) result }
{
    for field in fields {
        next_field(out, bytes, field)?;
    }
    Ok(())
}

fn next_field<S: Sink>(out: &mut S, bytes: &[u8], field: &Field) -> Result<(), SinkFault>
    requires { 512 ≤ length bytes.now }
    ensures { PutsOrFails S.contents S.failed out.old out.new
        (next_text field.now.name.now (compact_text (value_of bytes.now field.now.kind field.now.at))) result }
{
    let name = field.name;
    let at = usize::from(field.at);
    match field.kind {
        Kind::Byte => next_number(out, name, u8_at(bytes, at)),
        Kind::Half => next_number(out, name, u16_at(bytes, at)),
        Kind::Word => next_number(out, name, u32_at(bytes, at)),
        Kind::Long => next_number(out, name, u64_at(bytes, at)),
        Kind::Signed => next_signed(out, name, u32_at(bytes, at).cast_signed()),
        Kind::Time => next_number(out, name, u64_at(bytes, at) % SECONDS),
        Kind::HexByte => next_number(out, name, u8_at(bytes, at)),
        Kind::Hex => next_number(out, name, u32_at(bytes, at)),
        Kind::HexDigits => next_text(out, name, &hex_digits(u32_at(bytes, at))),
        Kind::Id => next_uuid(out, name, &uuid_at(bytes, at)),
        Kind::Name => next_name(out, name, &array_at(bytes, at)),
    }
}

/// Whether an element stands before the next one.
pub(crate) fn stands_before(later: bool, is_there: bool) -> bool
    ensures { result ≡ (later || is_there) }
{
    later || is_there
}

/// A text as an element of a list, where it is one.
#[tactic(auto, using(md_streams::proofs::Puts::puts_then))]
pub(crate) fn text_where<S: Sink>(
    out: &mut S,
    later: bool,
    is_there: bool,
    text: &str,
) -> Result<(), SinkFault>
    ensures { PutsOrFails S.contents S.failed out.old out.new
        (if is_there then (comma_if later ++ quoted text.now) else []) result }
{
    if !is_there {
        return Ok(());
    }
    out.put(comma_if(later))?;
    put_quoted(out, text.as_bytes())?;
    Ok(())
}
