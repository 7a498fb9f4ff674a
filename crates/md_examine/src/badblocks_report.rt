// The report of a member's bad blocks.
ghost use Rattle.std.specs.Prelude.{◌++◌, codes, decimal};
ghost use Rattle.std.specs.List.{flat_map};
ghost use Rattle.md_streams.specs.Sink.{PutsOrFails};
ghost use Rattle.md_examine.specs.BadblocksReport.{badblocks_report, run_text};

use crate::columns::right_aligned_number;
use itoa::Buffer;
use md_badblocks::{BadSet, Run};
use md_streams::{Sink, SinkFault};

/// Writes the report of a set of bad blocks: a line for each of its maximal runs, rising, or one
/// line where there is none. It takes no memory, and fails only where the sink has failed.
pub fn examine_badblocks<S: Sink>(out: &mut S, bad: &BadSet) -> Result<(), SinkFault>
    ensures { PutsOrFails S.contents S.failed out.old out.new (badblocks_report bad.now) result }
{
    if bad.is_empty() {
        out.put(b"no bad blocks\n")
    } else {
        run_lines(out, bad.runs())
    }
}

fn run_lines<S: Sink>(out: &mut S, runs: &[Run]) -> Result<(), SinkFault>
    ensures { PutsOrFails S.contents S.failed out.old out.new (flat_map run_text runs.now) result }
{
    for run in runs {
        run_line(out, run)?;
    }
    Ok(())
}

fn run_line<S: Sink>(out: &mut S, run: &Run) -> Result<(), SinkFault>
    ensures { PutsOrFails S.contents S.failed out.old out.new (run_text run.now) result }
{
    right_aligned_number(out, 12, run.start)?;
    size(out, run.len)?;
    Ok(())
}

// A run's length, and the line's end.
#[tactic(auto, using(md_streams::proofs::Puts::puts_then))]
fn size<S: Sink>(out: &mut S, n: u64) -> Result<(), SinkFault>
    ensures { PutsOrFails S.contents S.failed out.old out.new (codes " for " ++ decimal n ++ codes " sectors\n") result }
{
    let mut buffer = Buffer::new();
    out.put(b" for ")?;
    out.put(buffer.format(n).as_bytes())?;
    out.put(b" sectors\n")?;
    Ok(())
}
