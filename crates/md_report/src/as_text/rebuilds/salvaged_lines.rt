// The report of a rebuild that lists bad sectors, and not their chunks.
ghost use Rattle.std.specs.Prelude.{◌≡◌};
ghost use Rattle.md_streams.specs.Sink.{PutsOrFails};
ghost use Rattle.md_report.specs.AsText.Rebuilds.SalvagedReport.{besides, first_lost_text, salvaged_line, salvaged_text};

use crate::as_text::rebuilds::rebuilt_lines::planned_report;
use md_badblocks::{BadSet, Run};
use md_cert::Planned;
use md_notices::count_sectors;
use md_streams::{Sink, SinkFault, number_after};

/// Writes the plan of the pass of such a rebuild, and then one line: the member by its index, how many sectors no member in
/// sync gave, the first of them, and how many were listed besides, as a log had no room for so many runs. It takes no memory,
/// and fails only where the sink has failed.
#[tactic(auto, unfolding(crate::specs::AsText::Rebuilds::SalvagedReport::salvaged_text), using(md_streams::proofs::Puts::puts_then))]
pub fn salvaged_report<S: Sink>(
    out: &mut S,
    member: u32,
    planned: &Planned,
    lost: &BadSet,
    listed: &BadSet,
) -> Result<(), SinkFault>
    ensures { PutsOrFails S.contents S.failed out.old out.new
        (salvaged_text member planned.now lost.now listed.now) result }
{
    planned_report(out, planned)?;
    salvaged_line_report(out, member, lost, listed)?;
    Ok(())
}

/// Writes that line alone.
pub fn salvaged_line_report<S: Sink>(
    out: &mut S,
    member: u32,
    lost: &BadSet,
    listed: &BadSet,
) -> Result<(), SinkFault>
    ensures { PutsOrFails S.contents S.failed out.old out.new
        (salvaged_line member lost.now listed.now) result }
{
    number_after(out, b"rebuilt member ", member)?;
    number_after(out, b", passes 1, lost sectors ", count_sectors(lost))?;
    put_first(out, lost.runs())?;
    number_after(out, b", listed besides ", besides(lost, listed))?;
    out.put(b"\n")?;
    Ok(())
}

// The first of them, where there are some.
fn put_first<S: Sink>(out: &mut S, runs: &[Run]) -> Result<(), SinkFault>
    ensures { PutsOrFails S.contents S.failed out.old out.new (first_lost_text runs.now) result }
{
    match runs.first() {
        Some(run) => number_after(out, b", first ", run.start),
        None => out.put(b""),
    }
}

/// How many sectors were listed besides those that are lost, which are among them.
pub(crate) fn besides(lost: &BadSet, listed: &BadSet) -> u64
    ensures { result ≡ besides lost.now listed.now }
{
    count_sectors(listed).saturating_sub(count_sectors(lost))
}
