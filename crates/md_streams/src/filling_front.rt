// As many bytes are taken as a buffer has room for.
ghost use Rattle.std.specs.Prelude.{MatchResult, length};
ghost use Rattle.md_streams.specs.FrontFilled.{FailsAfter, FillsFrontOf};

use crate::source::{Source, SourceFault};

/// Fills the front of `buf` with the next bytes, and answers how many they are: fewer than there is room for only where the source
/// ended.
pub fn fill_front<I: Source>(input: &mut I, buf: &mut [u8]) -> Result<usize, SourceFault>
    ensures { MatchResult result
        (FillsFrontOf I.Source input.old input.new buf.new)
        (λ _. FailsAfter I.Source (length buf.old) input.old input.new) }
{
    let mut filled = 0;
    while filled < buf.len() {
        let taken = input.take(&mut buf[filled..])?;
        if taken == 0 {
            return Ok(filled);
        }
        filled += taken;
    }
    Ok(filled)
}
