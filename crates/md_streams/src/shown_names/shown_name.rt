// A name as it is shown.
ghost use Rattle.std.specs.List.{flat_map};
ghost use Rattle.md_streams.specs.Sink.{PutsOrFails};
ghost use Rattle.md_streams.specs.ShownNames.Shown.{byte_text, quoted_text, shown};

use crate::numbers::hex_digit;
use crate::shown_names::hidden::hides;
use crate::sink::{Sink, SinkFault};

/// Puts out a name, as it stands or, where it hides something, as a word of bash. It takes no memory, and fails only where
/// the sink has failed.
#[tactic(auto, unfolding(crate::specs::ShownNames::Shown::shown))]
pub fn put_name<S: Sink>(out: &mut S, name: &str) -> Result<(), SinkFault>
    ensures { PutsOrFails S.contents S.failed out.old out.new (shown name.now) result }
{
    if hides(name) {
        put_quoted(out, name.as_bytes())
    } else {
        out.put(name.as_bytes())
    }
}

#[tactic(auto, using(crate::proofs::Puts::puts_then))]
fn put_quoted<S: Sink>(out: &mut S, name: &[u8]) -> Result<(), SinkFault>
    ensures { PutsOrFails S.contents S.failed out.old out.new (quoted_text name.now) result }
{
    out.put(b"$'")?;
    put_escaped(out, name)?;
    out.put(b"'")?;
    Ok(())
}

fn put_escaped<S: Sink>(out: &mut S, name: &[u8]) -> Result<(), SinkFault>
    ensures { PutsOrFails S.contents S.failed out.old out.new (flat_map byte_text name.now) result }
{
    for byte in name {
        escaped_byte(out, *byte)?;
    }
    Ok(())
}

fn escaped_byte<S: Sink>(out: &mut S, byte: u8) -> Result<(), SinkFault>
    ensures { PutsOrFails S.contents S.failed out.old out.new (byte_text byte) result }
{
    if byte == b'\\' || byte == b'\'' {
        return out.put(&[b'\\', byte]);
    }
    if byte < 0x20 || byte > 0x7e {
        return out.put(&[b'\\', b'x', hex_digit(byte / 16), hex_digit(byte % 16)]);
    }
    out.put(&[byte])
}
