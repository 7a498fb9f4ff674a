// A text in quotes.
ghost use Rattle.std.specs.Prelude.{◌≡◌};
ghost use Rattle.std.specs.List.{flat_map};
ghost use Rattle.json.specs.Print.{escape_byte, escape_letter, quoted};
ghost use Rattle.md_streams.specs.Sink.{PutsOrFails};

use md_streams::{Sink, SinkFault, hex_digit};

/// A text in quotes. Bytes above 127 stand as they are: text is UTF-8.
#[tactic(auto, using(md_streams::proofs::Puts::puts_then))]
pub fn put_quoted<S: Sink>(out: &mut S, text: &[u8]) -> Result<(), SinkFault>
    ensures { PutsOrFails S.contents S.failed out.old out.new (quoted text.now) result }
{
    out.put(b"\"")?;
    put_escaped(out, text)?;
    out.put(b"\"")?;
    Ok(())
}

fn put_escaped<S: Sink>(out: &mut S, text: &[u8]) -> Result<(), SinkFault>
    ensures { PutsOrFails S.contents S.failed out.old out.new (flat_map escape_byte text.now) result }
{
    for byte in text {
        escaped_byte(out, *byte)?;
    }
    Ok(())
}

#[tactic(auto, unfolding(json::specs::Print::escape_byte))]
fn escaped_byte<S: Sink>(out: &mut S, byte: u8) -> Result<(), SinkFault>
    ensures { PutsOrFails S.contents S.failed out.old out.new (escape_byte byte) result }
{
    let letter = escape_letter(byte);
    if letter > 0 {
        return out.put(&[b'\\', letter]);
    }
    if byte < 0x20 {
        return out.put(&[
            b'\\',
            b'u',
            b'0',
            b'0',
            hex_digit(byte / 16),
            hex_digit(byte % 16),
        ]);
    }
    out.put(&[byte])
}

// The letter of a short escape, or 0 where there is none.
fn escape_letter(byte: u8) -> u8
    ensures { result ≡ escape_letter byte }
{
    match byte {
        b'"' | b'\\' => byte,
        8 => b'b',
        12 => b'f',
        b'\n' => b'n',
        b'\r' => b'r',
        b'\t' => b't',
        _ => 0,
    }
}
