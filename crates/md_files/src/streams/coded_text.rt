// Text in which no character hides.
ghost use Rattle.md_streams.specs.Sink.{PutsOrFails};
ghost use Rattle.md_files.specs.Streams.CodedText.{code_text, coded, coded_char};

use md_streams::{Sink, SinkFault, hex_digit, hides, is_hidden};

/// Puts out a text in which `\u` and four hex digits stand for each character that is not shown as it is, but for the line
/// feed. In a string of JSON it is the same character. It takes no memory, and fails only where the sink has failed.
pub fn put_coded<S: Sink>(out: &mut S, text: &str) -> Result<(), SinkFault>
    ensures { PutsOrFails S.contents S.failed out.old out.new (coded text.now) result }
{
    if !hides(text) {
        return out.put(text.as_bytes());
    }
    for c in text.chars() {
        put_char(out, c)?;
    }
    Ok(())
}

fn put_char<S: Sink>(out: &mut S, c: char) -> Result<(), SinkFault>
    ensures { PutsOrFails S.contents S.failed out.old out.new (coded_char c) result }
{
    if is_hidden(c) && c != '\n' {
        return put_code(out, c as u32);
    }
    let mut room = [0u8; 4];
    out.put(c.encode_utf8(&mut room).as_bytes())
}

// None of these characters has a code above 16 bits.
fn put_code<S: Sink>(out: &mut S, code: u32) -> Result<(), SinkFault>
    ensures { PutsOrFails S.contents S.failed out.old out.new (code_text code) result }
{
    out.put(&[
        b'\\',
        b'u',
        hex_digit((code / 4096 % 16) as u8),
        hex_digit((code / 256 % 16) as u8),
        hex_digit((code / 16 % 16) as u8),
        hex_digit((code % 16) as u8),
    ])
}
