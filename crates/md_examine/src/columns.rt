// Text in columns.
ghost use Rattle.std.specs.Prelude.{◌≡◌, ◌≤◌, replicate};
ghost use Rattle.md_streams.specs.Sink.{PutsOrFails};
ghost use Rattle.md_examine.specs.Lines.{right_aligned};

use itoa::{Buffer, Integer};
use md_streams::{Sink, SinkFault};

// The most places of a column.
const WIDEST: usize = 12;

static SPACES: [u8; WIDEST] = [b' '; WIDEST];

/// A text that ends with its column. One that is longer goes past it.
#[tactic(auto, unfolding(crate::specs::Lines::right_aligned), using(md_streams::proofs::Puts::puts_then))]
pub fn right_aligned<S: Sink>(out: &mut S, width: usize, text: &[u8]) -> Result<(), SinkFault>
    requires { width ≤ 12 }
    ensures { PutsOrFails S.contents S.failed out.old out.new (right_aligned width text.now) result }
{
    out.put(spaces(width.saturating_sub(text.len())))?;
    out.put(text)?;
    Ok(())
}

/// A number that ends with its column.
pub fn right_aligned_number<S: Sink, I: Integer>(
    out: &mut S,
    width: usize,
    n: I,
) -> Result<(), SinkFault>
    requires { width ≤ 12 }
    ensures { PutsOrFails S.contents S.failed out.old out.new (right_aligned width (I.text n)) result }
{
    let mut buffer = Buffer::new();
    right_aligned(out, width, buffer.format(n).as_bytes())
}

fn spaces(n: usize) -> &'static [u8]
    requires { n ≤ 12 }
    ensures { result.now ≡ replicate n 32 }
{
    &SPACES[..n]
}
