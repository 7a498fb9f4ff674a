// Bytes of the array are put out.
ghost use Rattle.std.specs.Prelude.{MatchResult};
ghost use Rattle.md_refusals.specs.Output.{FailsOutput};
ghost use Rattle.md_streams.specs.Putting.{PutsOut};

use md_refusals::CommandFault;
use md_streams::Sink;

/// Puts out these bytes, and passes on what the output holds back.
pub(crate) fn put_out<S: Sink>(out: &mut S, bytes: &[u8]) -> Result<(), CommandFault>
    ensures { MatchResult result
        (λ _. PutsOut S.Sink out.old out.new bytes.now)
        (FailsOutput S.Sink out.new) }
{
    out.put(bytes)?;
    out.flush()?;
    Ok(())
}
