// Words of mdadm.conf.
ghost use Rattle.std.specs.Prelude.{◌≡◌, ◌≤◌, ◌++◌, codes};
ghost use Rattle.std.specs.List.{flat_map, list_any};
ghost use Rattle.md_streams.specs.Sink.{PutsOrFails};
ghost use Rattle.md_examine_commands.specs.ScanText.{device_word, hex_byte, hex_bytes, id_text, needs_quotes, quarter_text, quoted_byte, word_text};

use md_streams::{Sink, SinkFault, hex_digit, hides, put_name};
use uuid::Uuid;

/// A word, in quotes where it has a space or a quote.
pub(crate) fn put_word<S: Sink>(out: &mut S, word: &[u8]) -> Result<(), SinkFault>
    ensures { PutsOrFails S.contents S.failed out.old out.new (word_text word.now) result }
{
    if is_quoted(word) {
        put_in_quotes(out, word)
    } else {
        out.put(word)
    }
}

fn is_quoted(word: &[u8]) -> bool
    ensures { result ≡ list_any needs_quotes word.now }
{
    word.iter().any(|byte| needs_quotes(*byte))
}

fn needs_quotes(byte: u8) -> bool
    ensures { result ≡ needs_quotes byte }
{
    byte == b' ' || byte == b'"' || byte == b'\''
}

#[tactic(auto, using(md_streams::proofs::Puts::puts_then))]
fn put_in_quotes<S: Sink>(out: &mut S, word: &[u8]) -> Result<(), SinkFault>
    ensures { PutsOrFails S.contents S.failed out.old out.new
        (codes "\"" ++ flat_map quoted_byte word.now ++ codes "\"") result }
{
    out.put(b"\"")?;
    put_quoted_bytes(out, word)?;
    out.put(b"\"")?;
    Ok(())
}

fn put_quoted_bytes<S: Sink>(out: &mut S, word: &[u8]) -> Result<(), SinkFault>
    ensures { PutsOrFails S.contents S.failed out.old out.new (flat_map quoted_byte word.now) result }
{
    for byte in word {
        put_quoted_byte(out, *byte)?;
    }
    Ok(())
}

// A double quote ends what is in double quotes, and stands in single ones.
fn put_quoted_byte<S: Sink>(out: &mut S, byte: u8) -> Result<(), SinkFault>
    ensures { PutsOrFails S.contents S.failed out.old out.new (quoted_byte byte) result }
{
    if byte == b'"' {
        return out.put(b"\"'\"'\"");
    }
    out.put(&[byte])
}

/// An image's name.
pub(crate) fn put_device<S: Sink>(out: &mut S, name: &str) -> Result<(), SinkFault>
    ensures { PutsOrFails S.contents S.failed out.old out.new (device_word name.now) result }
{
    if hides(name) {
        put_name(out, name)
    } else {
        put_word(out, name.as_bytes())
    }
}

/// An identifier as mdadm writes it.
pub(crate) fn put_id<S: Sink>(out: &mut S, id: &Uuid) -> Result<(), SinkFault>
    ensures { PutsOrFails S.contents S.failed out.old out.new (id_text id.now) result }
{
    put_id_bytes(out, id.as_bytes())
}

fn put_id_bytes<S: Sink>(out: &mut S, bytes: &[u8; 16]) -> Result<(), SinkFault>
    ensures { PutsOrFails S.contents S.failed out.old out.new (id_text bytes.now) result }
{
    put_quarter(out, bytes, 0)?;
    out.put(b":")?;
    put_quarter(out, bytes, 4)?;
    out.put(b":")?;
    put_quarter(out, bytes, 8)?;
    out.put(b":")?;
    put_quarter(out, bytes, 12)?;
    Ok(())
}

fn put_quarter<S: Sink>(out: &mut S, bytes: &[u8; 16], start: usize) -> Result<(), SinkFault>
    requires { start ≤ 12 }
    ensures { PutsOrFails S.contents S.failed out.old out.new (quarter_text bytes.now start) result }
{
    put_hex(out, &bytes[start..start + 4])
}

fn put_hex<S: Sink>(out: &mut S, bytes: &[u8]) -> Result<(), SinkFault>
    ensures { PutsOrFails S.contents S.failed out.old out.new (hex_bytes bytes.now) result }
{
    for byte in bytes {
        put_hex_byte(out, *byte)?;
    }
    Ok(())
}

fn put_hex_byte<S: Sink>(out: &mut S, byte: u8) -> Result<(), SinkFault>
    ensures { PutsOrFails S.contents S.failed out.old out.new (hex_byte byte) result }
{
    out.put(&[hex_digit(byte / 16), hex_digit(byte % 16)])
}
