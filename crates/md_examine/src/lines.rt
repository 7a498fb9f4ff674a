// Labelled lines. A label comes filled with spaces to 15 columns.
ghost use Rattle.std.specs.Prelude.{◌++◌, ◌≤◌, codes, decimal};
ghost use Rattle.std.specs.Fmt.{signed_decimal};
ghost use Rattle.uuid.specs.Text.{hyphenated_text, lower};
ghost use Rattle.md_streams.specs.Sink.{PutsOrFails};
ghost use Rattle.md_examine.specs.Lines.{line_text, hex_text, hex8_text, sectors_text, name_text};

use crate::values::{hex_digits, name_len, shown_bytes, zeros_in_front};
use itoa::{Buffer, Integer};
use md_streams::{Sink, SinkFault};
use uuid::Uuid;

/// A value.
#[tactic(auto, unfolding(crate::specs::Lines::line_text), using(md_streams::proofs::Puts::puts_then))]
pub fn line<S: Sink>(out: &mut S, label: &str, value: &[u8]) -> Result<(), SinkFault>
    ensures { PutsOrFails S.contents S.failed out.old out.new (line_text label.now value.now) result }
{
    out.put(label.as_bytes())?;
    out.put(b" : ")?;
    out.put(value)?;
    out.put(b"\n")?;
    Ok(())
}

/// A value in two parts.
#[tactic(auto, unfolding(crate::specs::Lines::line_text), using(md_streams::proofs::Puts::puts_then))]
pub fn two_part_line<S: Sink>(
    out: &mut S,
    label: &str,
    front: &[u8],
    back: &[u8],
) -> Result<(), SinkFault>
    ensures { PutsOrFails S.contents S.failed out.old out.new (line_text label.now (front.now ++ back.now)) result }
{
    out.put(label.as_bytes())?;
    out.put(b" : ")?;
    out.put(front)?;
    out.put(back)?;
    out.put(b"\n")?;
    Ok(())
}

/// A value in three parts.
#[tactic(auto, unfolding(crate::specs::Lines::line_text), using(md_streams::proofs::Puts::puts_then))]
pub fn three_part_line<S: Sink>(
    out: &mut S,
    label: &str,
    first: &[u8],
    second: &[u8],
    third: &[u8],
) -> Result<(), SinkFault>
    ensures { PutsOrFails S.contents S.failed out.old out.new (line_text label.now (first.now ++ second.now ++ third.now)) result }
{
    four_part_line(out, label, first, second, third, b"")
}

/// A number.
pub fn decimal_line<S: Sink, I: Integer>(out: &mut S, label: &str, n: I) -> Result<(), SinkFault>
    ensures { PutsOrFails S.contents S.failed out.old out.new (line_text label.now (I.text n)) result }
{
    let mut buffer = Buffer::new();
    line(out, label, buffer.format(n).as_bytes())
}

/// A number and its unit.
pub fn unit_line<S: Sink, I: Integer>(
    out: &mut S,
    label: &str,
    n: I,
    unit: &[u8],
) -> Result<(), SinkFault>
    ensures { PutsOrFails S.contents S.failed out.old out.new (line_text label.now (I.text n ++ unit.now)) result }
{
    let mut buffer = Buffer::new();
    two_part_line(out, label, buffer.format(n).as_bytes(), unit)
}

/// A number of sectors.
pub fn sectors_line<S: Sink>(out: &mut S, label: &str, n: u64) -> Result<(), SinkFault>
    ensures { PutsOrFails S.contents S.failed out.old out.new (line_text label.now (sectors_text n)) result }
{
    let mut buffer = Buffer::new();
    two_part_line(out, label, buffer.format(n).as_bytes(), b" sectors")
}

/// A number in hex after a prefix.
pub fn hex_line<S: Sink>(out: &mut S, label: &str, prefix: &[u8], n: u32) -> Result<(), SinkFault>
    ensures { PutsOrFails S.contents S.failed out.old out.new (line_text label.now (prefix.now ++ hex_text n)) result }
{
    let digits = hex_digits(n);
    let start = zeros_in_front(&digits);
    two_part_line(out, label, prefix, &digits[start..])
}

/// A number in eight hex digits.
pub fn hex8_line<S: Sink>(out: &mut S, label: &str, n: u32) -> Result<(), SinkFault>
    ensures { PutsOrFails S.contents S.failed out.old out.new (line_text label.now (hex8_text n)) result }
{
    line(out, label, &hex_digits(n))
}

/// An identifier.
pub fn uuid_line<S: Sink>(out: &mut S, label: &str, id: &Uuid) -> Result<(), SinkFault>
    ensures { PutsOrFails S.contents S.failed out.old out.new (line_text label.now (hyphenated_text lower id.now)) result }
{
    let mut buffer = Uuid::encode_buffer();
    let text = id.hyphenated().encode_lower(&mut buffer);
    line(out, label, text.as_bytes())
}

/// A name.
pub fn name_line<S: Sink>(out: &mut S, label: &str, name: &[u8; 32]) -> Result<(), SinkFault>
    ensures { PutsOrFails S.contents S.failed out.old out.new (line_text label.now (name_text name.now)) result }
{
    let shown = shown_bytes(name);
    let len = name_len(name);
    line(out, label, &shown[..len])
}

// A signed number of sectors from the superblock.
pub(crate) fn offset_line<S: Sink>(out: &mut S, label: &str, n: i32) -> Result<(), SinkFault>
    ensures { PutsOrFails S.contents S.failed out.old out.new (line_text label.now (signed_decimal n ++ codes " sectors from superblock")) result }
{
    let mut buffer = Buffer::new();
    two_part_line(
        out,
        label,
        buffer.format(n).as_bytes(),
        b" sectors from superblock",
    )
}

// The size and the place of a log.
pub(crate) fn log_line<S: Sink>(
    out: &mut S,
    label: &str,
    entries: u32,
    offset: i32,
) -> Result<(), SinkFault>
    ensures { PutsOrFails S.contents S.failed out.old out.new (line_text label.now (decimal entries ++ codes " entries at " ++ signed_decimal offset ++ codes " sectors")) result }
{
    let mut entries_buffer = Buffer::new();
    let mut offset_buffer = Buffer::new();
    let entries = entries_buffer.format(entries).as_bytes();
    let offset = offset_buffer.format(offset).as_bytes();
    four_part_line(out, label, entries, b" entries at ", offset, b" sectors")
}

/// The chunks of a bitmap, and how many of them are marked.
pub fn marks_line<S: Sink>(
    out: &mut S,
    label: &str,
    chunks: u32,
    marked: u32,
) -> Result<(), SinkFault>
    ensures { PutsOrFails S.contents S.failed out.old out.new (line_text label.now (decimal chunks ++ codes " chunks, " ++ decimal marked ++ codes " marked")) result }
{
    let mut chunks_buffer = Buffer::new();
    let mut marked_buffer = Buffer::new();
    let chunks = chunks_buffer.format(chunks).as_bytes();
    let marked = marked_buffer.format(marked).as_bytes();
    four_part_line(out, label, chunks, b" chunks, ", marked, b" marked")
}

// A value in four parts.
fn four_part_line<S: Sink>(
    out: &mut S,
    label: &str,
    first: &[u8],
    second: &[u8],
    third: &[u8],
    fourth: &[u8],
) -> Result<(), SinkFault>
    ensures { PutsOrFails S.contents S.failed out.old out.new (line_text label.now (first.now ++ second.now ++ third.now ++ fourth.now)) result }
{
    start_line(out, label)?;
    out.put(first)?;
    out.put(second)?;
    out.put(third)?;
    out.put(fourth)?;
    out.put(b"\n")?;
    Ok(())
}

#[tactic(auto, using(md_streams::proofs::Puts::puts_then))]
fn start_line<S: Sink>(out: &mut S, label: &str) -> Result<(), SinkFault>
    ensures { PutsOrFails S.contents S.failed out.old out.new (label.now ++ codes " : ") result }
{
    out.put(label.as_bytes())?;
    out.put(b" : ")?;
    Ok(())
}
