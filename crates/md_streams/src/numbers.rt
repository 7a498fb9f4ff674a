// Numbers after a text, and a digit.
ghost use Rattle.std.specs.Prelude.{◌≡◌, ◌++◌, ◌<◌};
ghost use Rattle.std.specs.Char.{digit_char};
ghost use Rattle.md_streams.specs.Sink.{PutsOrFails};

use crate::sink::{Sink, SinkFault};
use itoa::{Buffer, Integer};

/// A text and a number.
#[tactic(auto, using(crate::proofs::Puts::puts_then))]
pub fn number_after<S: Sink, I: Integer>(out: &mut S, text: &[u8], n: I) -> Result<(), SinkFault>
    ensures { PutsOrFails S.contents S.failed out.old out.new (text.now ++ I.text n) result }
{
    let mut buffer = Buffer::new();
    out.put(text)?;
    out.put(buffer.format(n).as_bytes())?;
    Ok(())
}

/// A hex digit.
pub fn hex_digit(digit: u8) -> u8
    requires { digit < 16 }
    ensures { result ≡ digit_char digit }
{
    if digit < 10 {
        b'0' + digit
    } else {
        b'a' - 10 + digit
    }
}
