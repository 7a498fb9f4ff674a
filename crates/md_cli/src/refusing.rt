// Why a command is refused, as a JSON object.
ghost use Rattle.std.specs.Prelude.{◌≡◌, IfOk, MatchResult, option_map};
ghost use Rattle.md_refusals.specs.Output.{FailsOutput};
ghost use Rattle.md_streams.specs.Putting.{PutsOut};
ghost use Rattle.md_report.specs.AsJson.Objects.{object_line};
ghost use Rattle.md_report.specs.AsJson.RefusalObject.{refusal_object};
ghost use Rattle.md_words.specs.Asks.{ask_of, is_json};
ghost use Rattle.md_cli.specs.Refusing.{ShowsIfRefused, ShowsWhy};

use md_messages::{advice_words, fault_words, refusal_words};
use md_refusals::CommandFault;
use md_report::refusal_json;
use md_streams::Sink;
use md_words::Command;
use std::alloc::Global;

/// Where a command is refused whose report was to be a JSON object, puts out an object that says why. What standard error is
/// told stays as it is. Without memory for its text nothing is put out.
pub(crate) fn show_if_refused<S: Sink>(
    alloc: Global,
    outcome: &Result<(), CommandFault>,
    command: Command<'_>,
    names: &[&str],
    out: &mut S,
)
    ensures shows { ShowsIfRefused S.Sink (is_json (ask_of command.entry)) out.old out.new outcome.now }
{
    match outcome {
        Ok(()) => {}
        Err(fault) => show_why(alloc, fault, command, names, out),
    }
}

/// Puts out an object that says why a command is refused, where its report was to be one.
pub fn show_why<S: Sink>(
    alloc: Global,
    fault: &CommandFault,
    command: Command<'_>,
    names: &[&str],
    out: &mut S,
)
    ensures { ShowsWhy S.Sink (is_json (ask_of command.entry)) out.old out.new fault.now }
{
    if !command.is_json() {
        return;
    }
    let Ok(words) = fault_words(alloc, fault) else {
        return;
    };
    let Ok(line) = refusal_words(alloc, fault) else {
        return;
    };
    let advice = advice_words(alloc, fault, names, command);
    let _ = put_refusal(&words, &line, advice.as_deref(), out);
}

fn put_refusal<S: Sink>(
    fault: &[u8],
    line: &[u8],
    advice: Option<&[u8]>,
    out: &mut S,
) -> Result<(), CommandFault>
    ensures { MatchResult result
        (λ _. PutsOut S.Sink out.old out.new
        (object_line (refusal_object fault.now line.now (option_map (λ s. s.now) advice.entry))))
        (FailsOutput S.Sink out.new) }
{
    refusal_json(out, fault, line, advice)?;
    out.flush()?;
    Ok(())
}
