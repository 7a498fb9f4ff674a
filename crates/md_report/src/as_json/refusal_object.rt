// The object of a command that is refused.
ghost use Rattle.std.specs.Prelude.{◌≡◌, ◌++◌, ◌∷◌, codes, option_map};
ghost use Rattle.json.specs.Print.{quoted};
ghost use Rattle.serde_json.specs.Written.{compact_text};
ghost use Rattle.md_streams.specs.Sink.{PutsOrFails};
ghost use Rattle.md_report.specs.AsJson.WholeArray.MemberObjects.{text_or_null};
ghost use Rattle.md_report.specs.AsJson.Objects.{key_text, next_text, object_line};
ghost use Rattle.md_report.specs.AsJson.RefusalObject.{refusal_object};

use crate::as_json::quoting::put_quoted;
use crate::as_json::values::{key, next_null, next_text};
use md_streams::{Sink, SinkFault};

/// Writes why a command is refused as an object, alone in its line: the fault, the line that tells of it, and what to do,
/// where that is known. It takes no memory, and fails only where the sink has failed.
#[tactic(auto, using(md_streams::proofs::Puts::puts_then))]
pub fn refusal_json<S: Sink>(
    out: &mut S,
    fault: &[u8],
    line: &[u8],
    advice: Option<&[u8]>,
) -> Result<(), SinkFault>
    ensures { PutsOrFails S.contents S.failed out.old out.new
        (object_line (refusal_object fault.now line.now (option_map (λ s. s.now) advice.entry))) result }
{
    refusal(out, fault, line, advice)?;
    out.put(b"\n")?;
    Ok(())
}

fn refusal<S: Sink>(
    out: &mut S,
    fault: &[u8],
    line: &[u8],
    advice: Option<&[u8]>,
) -> Result<(), SinkFault>
    ensures { PutsOrFails S.contents S.failed out.old out.new
        (compact_text (refusal_object fault.now line.now (option_map (λ s. s.now) advice.entry))) result }
{
    open_fault(out, fault)?;
    next_text(out, "text", line)?;
    advice_field(out, advice)?;
    out.put(b"}")?;
    Ok(())
}

// The brace, and the fault.
#[tactic(auto, using(md_streams::proofs::Puts::puts_then))]
fn open_fault<S: Sink>(out: &mut S, fault: &[u8]) -> Result<(), SinkFault>
    ensures { PutsOrFails S.contents S.failed out.old out.new
        (123 ∷ (key_text (codes "fault") ++ quoted fault.now)) result }
{
    out.put(b"{")?;
    key(out, "fault")?;
    put_quoted(out, fault)?;
    Ok(())
}

fn advice_field<S: Sink>(out: &mut S, advice: Option<&[u8]>) -> Result<(), SinkFault>
    ensures { PutsOrFails S.contents S.failed out.old out.new
        (next_text (codes "advice") (compact_text (text_or_null (option_map (λ s. s.now) advice.entry)))) result }
{
    match advice {
        Some(advice) => next_text(out, "advice", advice),
        None => next_null(out, "advice"),
    }
}
