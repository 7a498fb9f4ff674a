// The object of a member's bad blocks.
ghost use Rattle.std.specs.Prelude.{◌≡◌, ◌++◌, codes, false};
ghost use Rattle.serde_json.specs.Written.{comma_if, compact_text};
ghost use Rattle.md_streams.specs.Sink.{PutsOrFails};
ghost use Rattle.md_report.specs.AsJson.OneImage.BadblocksObject.{badblocks_object, list_fields, run_object};
ghost use Rattle.md_report.specs.AsJson.Objects.{elements_text, later_text, object_line};

use crate::as_json::values::{close, comma_if, next_key, next_number, open, open_number};
use md_badblocks::{BadSet, Run};
use md_streams::{Sink, SinkFault};

/// Writes a set of bad blocks as an object, alone in its line: each of its maximal runs, rising. It takes no
/// memory, and fails only where the sink has failed.
pub fn badblocks_json<S: Sink>(out: &mut S, bad: &BadSet) -> Result<(), SinkFault>
    ensures { PutsOrFails S.contents S.failed out.old out.new
        (object_line (badblocks_object bad.now)) result }
{
    open(out, "examine-badblocks")?;
    run_list(out, bad.runs())?;
    close(out)?;
    Ok(())
}

fn run_list<S: Sink>(out: &mut S, runs: &[Run]) -> Result<(), SinkFault>
    ensures { PutsOrFails S.contents S.failed out.old out.new
        (later_text (list_fields runs.now)) result }
{
    next_key(out, "bad_blocks")?;
    out.put(b"[")?;
    run_elements(out, runs)?;
    out.put(b"]")?;
    Ok(())
}

/// The runs, as the elements of a list.
pub(crate) fn run_elements<S: Sink>(out: &mut S, runs: &[Run]) -> Result<(), SinkFault>
    ensures { PutsOrFails S.contents S.failed out.old out.new
        (elements_text run_object false runs.now) result }
{
    let mut later = false;
    for run in runs {
        run_element(out, later, run)?;
        later = true;
    }
    Ok(())
}

// A run, after a comma where it is not the first.
#[tactic(auto, using(md_streams::proofs::Puts::puts_then))]
fn run_element<S: Sink>(out: &mut S, later: bool, run: &Run) -> Result<(), SinkFault>
    ensures { PutsOrFails S.contents S.failed out.old out.new
        (comma_if later ++ compact_text (run_object run.now)) result }
{
    out.put(comma_if(later))?;
    run_value(out, run)?;
    Ok(())
}

fn run_value<S: Sink>(out: &mut S, run: &Run) -> Result<(), SinkFault>
    ensures { PutsOrFails S.contents S.failed out.old out.new
        (compact_text (run_object run.now)) result }
{
    open_number(out, "sector", run.start)?;
    next_number(out, "sectors", run.len)?;
    out.put(b"}")?;
    Ok(())
}
