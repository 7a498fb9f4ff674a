//! How an object is written: fields after the first one, each with its comma, its name and its value.

ghost use Rattle.std.specs.Prelude.{◌≡◌, ◌||◌, ◌++◌, ◌∷◌, [], codes, if◌then◌else◌};
ghost use Rattle.std.specs.Fmt.{signed_decimal};
ghost use Rattle.uuid.specs.Text.{hyphenated_text, lower};
ghost use Rattle.json.specs.Print.{quoted, token_text};
ghost use Rattle.json.specs.Token.{Token};
ghost use Rattle.serde_json.specs.Written.{comma_if, compact_text};
ghost use Rattle.md_examine.specs.Lines.{name_text};
ghost use Rattle.md_streams.specs.Sink.{PutsOrFails};
ghost use Rattle.md_examine.specs.SuperblockReport.{state_text};
ghost use Rattle.md_report.specs.AsJson.Objects.{close_text, key_text, next_text, open_text, signed, whole};

use crate::as_json::quoting::put_quoted;
use itoa::{Buffer, Integer};
use md_examine::{cleanness, name_len, shown_bytes};
use md_streams::{Sink, SinkFault};
use md_super::Superblock;
use uuid::Uuid;

/// Opens the object of a report: its first field says which one it is.
#[tactic(auto, unfolding(crate::specs::AsJson::Objects::open_text), using(md_streams::proofs::Puts::puts_then))]
pub fn open<S: Sink>(out: &mut S, kind: &str) -> Result<(), SinkFault>
    ensures { PutsOrFails S.contents S.failed out.old out.new (open_text kind.now) result }
{
    out.put(b"{")?;
    key(out, "report")?;
    put_quoted(out, kind.as_bytes())?;
    Ok(())
}

/// Closes the object of a report, and ends its line.
pub fn close<S: Sink>(out: &mut S) -> Result<(), SinkFault>
    ensures { PutsOrFails S.contents S.failed out.old out.new close_text result }
{
    out.put(b"}\n")
}

/// A name and its colon.
#[tactic(auto, using(md_streams::proofs::Puts::puts_then))]
pub(crate) fn key<S: Sink>(out: &mut S, name: &str) -> Result<(), SinkFault>
    ensures { PutsOrFails S.contents S.failed out.old out.new (key_text name.now) result }
{
    put_quoted(out, name.as_bytes())?;
    out.put(b":")?;
    Ok(())
}

/// Begins a field: a comma, its name, and a colon.
#[tactic(auto, using(md_streams::proofs::Puts::puts_then))]
pub fn next_key<S: Sink>(out: &mut S, name: &str) -> Result<(), SinkFault>
    ensures { PutsOrFails S.contents S.failed out.old out.new (44 ∷ key_text name.now) result }
{
    out.put(b",")?;
    key(out, name)?;
    Ok(())
}

/// A value that is written as it stands.
#[tactic(auto, unfolding(crate::specs::AsJson::Objects::next_text), using(md_streams::proofs::Puts::puts_then))]
pub(crate) fn next_plain<S: Sink>(out: &mut S, name: &str, value: &[u8]) -> Result<(), SinkFault>
    ensures { PutsOrFails S.contents S.failed out.old out.new (next_text name.now value.now) result }
{
    next_key(out, name)?;
    out.put(value)?;
    Ok(())
}

/// A field whose value is a text.
#[tactic(auto, unfolding(crate::specs::AsJson::Objects::next_text), using(md_streams::proofs::Puts::puts_then))]
pub fn next_text<S: Sink>(out: &mut S, name: &str, text: &[u8]) -> Result<(), SinkFault>
    ensures { PutsOrFails S.contents S.failed out.old out.new
        (next_text name.now (quoted text.now)) result }
{
    next_key(out, name)?;
    put_quoted(out, text)?;
    Ok(())
}

/// A field whose value is a number.
pub fn next_number<S: Sink, I: Integer>(out: &mut S, name: &str, n: I) -> Result<(), SinkFault>
    ensures { PutsOrFails S.contents S.failed out.old out.new (next_text name.now (I.text n)) result }
{
    let mut buffer = Buffer::new();
    next_plain(out, name, buffer.format(n).as_bytes())
}

/// A field whose value is a signed number.
#[tactic(auto, using(crate::proofs::JsonLemmas::Texts::signed_text))]
pub fn next_signed<S: Sink>(out: &mut S, name: &str, n: i32) -> Result<(), SinkFault>
    ensures { PutsOrFails S.contents S.failed out.old out.new
        (next_text name.now (compact_text (signed n))) result }
{
    next_digits(out, name, n)
}

fn next_digits<S: Sink>(out: &mut S, name: &str, n: i32) -> Result<(), SinkFault>
    ensures { PutsOrFails S.contents S.failed out.old out.new
        (next_text name.now (signed_decimal n)) result }
{
    let mut buffer = Buffer::new();
    next_plain(out, name, buffer.format(n).as_bytes())
}

/// A number alone.
pub(crate) fn number<S: Sink, I: Integer>(out: &mut S, n: I) -> Result<(), SinkFault>
    ensures { PutsOrFails S.contents S.failed out.old out.new (I.text n) result }
{
    let mut buffer = Buffer::new();
    out.put(buffer.format(n).as_bytes())
}

/// Opens an object within a report, whose first field is a number.
#[tactic(auto, using(md_streams::proofs::Puts::puts_then))]
pub fn open_number<S: Sink, I: Integer>(out: &mut S, name: &str, n: I) -> Result<(), SinkFault>
    ensures { PutsOrFails S.contents S.failed out.old out.new
        (123 ∷ (key_text name.now ++ I.text n)) result }
{
    out.put(b"{")?;
    key(out, name)?;
    number(out, n)?;
    Ok(())
}

/// Whether an element stands before the next one.
pub(crate) fn stands_before(later: bool, written: bool) -> bool
    ensures { result ≡ (later || written) }
{
    later || written
}

/// A number as an element of a list, where it is one of those that are chosen.
pub(crate) fn chosen_number<S: Sink>(
    out: &mut S,
    later: bool,
    chosen: bool,
    n: usize,
) -> Result<(), SinkFault>
    ensures { PutsOrFails S.contents S.failed out.old out.new
        (if chosen then (comma_if later ++ compact_text (whole n)) else []) result }
{
    if !chosen {
        return Ok(());
    }
    number_element(out, later, n)
}

#[tactic(auto, using(md_streams::proofs::Puts::puts_then))]
fn number_element<S: Sink>(out: &mut S, later: bool, n: usize) -> Result<(), SinkFault>
    ensures { PutsOrFails S.contents S.failed out.old out.new
        (comma_if later ++ compact_text (whole n)) result }
{
    out.put(comma_if(later))?;
    number(out, n)?;
    Ok(())
}

/// The comma before an element that is not the first.
pub fn comma_if(later: bool) -> &'static [u8]
    ensures { result.now ≡ comma_if later }
{
    if later { b"," } else { b"" }
}

/// A field whose value is null.
pub fn next_null<S: Sink>(out: &mut S, name: &str) -> Result<(), SinkFault>
    ensures { PutsOrFails S.contents S.failed out.old out.new
        (next_text name.now (token_text Token.null)) result }
{
    next_plain(out, name, b"null")
}

/// Whether something holds.
pub(crate) fn next_bool<S: Sink>(out: &mut S, name: &str, holds: bool) -> Result<(), SinkFault>
    ensures { PutsOrFails S.contents S.failed out.old out.new
        (next_text name.now (token_text (Token.boolean holds))) result }
{
    if holds {
        next_plain(out, name, b"true")
    } else {
        next_plain(out, name, b"false")
    }
}

/// A field whose value is an identifier.
pub fn next_uuid<S: Sink>(out: &mut S, name: &str, id: &Uuid) -> Result<(), SinkFault>
    ensures { PutsOrFails S.contents S.failed out.old out.new
        (next_text name.now (quoted (hyphenated_text lower id.now))) result }
{
    let mut buffer = Uuid::encode_buffer();
    let text = id.hyphenated().encode_lower(&mut buffer);
    next_text(out, name, text.as_bytes())
}

/// Whether the array was stopped in order.
pub(crate) fn next_cleanness<S: Sink>(out: &mut S, v: &Superblock) -> Result<(), SinkFault>
    ensures { PutsOrFails S.contents S.failed out.old out.new
        (next_text (codes "state") (quoted (state_text v.now))) result }
{
    next_text(out, "state", cleanness(v).as_bytes())
}

/// A field whose value is the name of an array, as the report shows it.
pub fn next_name<S: Sink>(out: &mut S, name: &str, value: &[u8; 32]) -> Result<(), SinkFault>
    ensures { PutsOrFails S.contents S.failed out.old out.new
        (next_text name.now (quoted (name_text value.now))) result }
{
    let shown = shown_bytes(value);
    let len = name_len(value);
    next_text(out, name, &shown[..len])
}
