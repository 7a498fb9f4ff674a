// Bytes are put out.
ghost use Rattle.std.specs.Prelude.{◌≡◌, MatchResult, true};
ghost use Rattle.md_streams.specs.Putting.{PutsOut};

use md_streams::{Sink, SinkFault};

/// Puts out these bytes, and passes on what the sink holds back.
pub fn put<O: Sink>(out: &mut O, bytes: &[u8]) -> Result<(), SinkFault>
    ensures { MatchResult result
        (λ _. PutsOut O.Sink out.old out.new bytes.now)
        (λ _. O.failed out.new ≡ true) }
{
    out.put(bytes)?;
    out.flush()?;
    Ok(())
}
