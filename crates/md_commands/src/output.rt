// What a command puts out.
ghost use Rattle.std.specs.Prelude.{◌≡◌, MatchResult};
ghost use Rattle.md_bitmap.specs.Marks.{count_set};
ghost use Rattle.md_collect.specs.Found.{IsSized};
ghost use Rattle.md_streams.specs.Sink.{PutsOrFails};
ghost use Rattle.md_streams.specs.Putting.{PutsOut};
ghost use Rattle.md_report.specs.AsText.CheckReport.{check_text, list_text};
ghost use Rattle.md_report.specs.AsText.WholeArray.DetailReport.{detail_text};
ghost use Rattle.md_report.specs.AsText.Rebuilds.RebuiltReport.{planned_text};
ghost use Rattle.md_report.specs.AsText.WholeArray.SummaryReport.{summary_text};
ghost use Rattle.md_report.specs.AsText.WholeArray.VerboseReport.{verbose_text};
ghost use Rattle.md_report.specs.AsJson.WholeArray.MemberObjects.{texts_of};
ghost use Rattle.md_refusals.specs.Output.{FailsOutput};
ghost use Rattle.md_commands.specs.Rebuilding.{rebuilt_shown};
ghost use Rattle.md_commands.specs.Salvaging.{salvaged_shown};

use md_array::Mirror;
use md_bitmap::Chunks;
use md_cert::Planned;
use md_collect::Comparison;
use md_copy::{Rebuilt, Salvaged};
use md_device::Device;
use md_refusals::CommandFault;
use md_report::{
    check_list_report, check_report, detail, plan_report, rebuilt_line_report, rebuilt_report,
    salvaged_line_report, salvaged_report, summary, verbose_detail,
};
use md_streams::{Sink, SinkFault};

/// Puts out an array in one line.
pub(crate) fn put_summary<D: Device + Drop, S: Sink>(
    mirror: &Mirror<D>,
    out: &mut S,
) -> Result<(), CommandFault>
    ensures { MatchResult result
        (λ _. PutsOut S.Sink out.old out.new (summary_text mirror.now.array))
        (FailsOutput S.Sink out.new) }
{
    summary(out, mirror)?;
    out.flush()?;
    Ok(())
}

/// Puts out an array with the state of each member.
pub(crate) fn put_detail<D: Device + Drop, S: Sink>(
    mirror: &Mirror<D>,
    out: &mut S,
) -> Result<(), CommandFault>
    ensures { MatchResult result
        (λ _. PutsOut S.Sink out.old out.new (detail_text mirror.now.array))
        (FailsOutput S.Sink out.new) }
{
    detail(out, mirror)?;
    out.flush()?;
    Ok(())
}

/// Puts out an array with the state of each member and with its image.
pub(crate) fn put_verbose_detail<D: Device + Drop, S: Sink>(
    mirror: &Mirror<D>,
    images: &[&str],
    out: &mut S,
) -> Result<(), CommandFault>
    ensures { MatchResult result
        (λ _. PutsOut S.Sink out.old out.new (verbose_text mirror.now.array (texts_of images.now)))
        (FailsOutput S.Sink out.new) }
{
    verbose_detail(out, mirror, images)?;
    out.flush()?;
    Ok(())
}

/// Puts out a plan.
pub(crate) fn put_plan<S: Sink>(planned: &Planned, out: &mut S) -> Result<(), CommandFault>
    ensures { MatchResult result
        (λ _. PutsOut S.Sink out.old out.new (planned_text planned.now))
        (FailsOutput S.Sink out.new) }
{
    let orphans = planned.orphans.as_slice();
    plan_report(out, &planned.plan, &planned.certificate, orphans)?;
    out.flush()?;
    Ok(())
}

/// Puts out what was rebuilt: the plan of each pass, unless `quiet`, and a line on the member with this index.
pub(crate) fn put_rebuilt<S: Sink>(
    rebuilt: &Rebuilt,
    member: u32,
    quiet: bool,
    out: &mut S,
) -> Result<(), CommandFault>
    ensures { MatchResult result
        (λ _. PutsOut S.Sink out.old out.new (rebuilt_shown quiet member rebuilt.now))
        (FailsOutput S.Sink out.new) }
{
    put_rebuilt_lines(rebuilt, member, quiet, out)?;
    out.flush()?;
    Ok(())
}

fn put_rebuilt_lines<S: Sink>(
    rebuilt: &Rebuilt,
    member: u32,
    quiet: bool,
    out: &mut S,
) -> Result<(), SinkFault>
    ensures { PutsOrFails S.contents S.failed out.old out.new
        (rebuilt_shown quiet member rebuilt.now) result }
{
    let orphans = rebuilt.orphans.len();
    if quiet {
        return rebuilt_line_report(out, member, rebuilt.passes, orphans);
    }
    let plans = rebuilt.plans.as_slice();
    rebuilt_report(out, member, rebuilt.passes, plans, orphans)
}

/// Puts out what was rebuilt and which sectors are lost: the plan of the pass, unless `quiet`, and a line on the member with this
/// index.
pub(crate) fn put_salvaged<S: Sink>(
    salvaged: &Salvaged,
    member: u32,
    quiet: bool,
    out: &mut S,
) -> Result<(), CommandFault>
    ensures { MatchResult result
        (λ _. PutsOut S.Sink out.old out.new (salvaged_shown quiet member salvaged.now))
        (FailsOutput S.Sink out.new) }
{
    put_salvaged_lines(salvaged, member, quiet, out)?;
    out.flush()?;
    Ok(())
}

fn put_salvaged_lines<S: Sink>(
    salvaged: &Salvaged,
    member: u32,
    quiet: bool,
    out: &mut S,
) -> Result<(), SinkFault>
    ensures { PutsOrFails S.contents S.failed out.old out.new
        (salvaged_shown quiet member salvaged.now) result }
{
    let (lost, listed) = (&salvaged.lost, &salvaged.listed);
    if !quiet {
        return salvaged_report(out, member, &salvaged.planned, lost, listed);
    }
    salvaged_line_report(out, member, lost, listed)
}

/// Puts out in how many chunks members in sync differ, and gives that.
pub(crate) fn put_checked<S: Sink>(mismatched: u32, out: &mut S) -> Result<u32, CommandFault>
    ensures { MatchResult result
        (λ count. (count ≡ mismatched) × PutsOut S.Sink out.old out.new (check_text mismatched))
        (FailsOutput S.Sink out.new) }
{
    check_report(out, mismatched)?;
    out.flush()?;
    Ok(mismatched)
}

/// Puts out in which chunks members in sync differ, and which, and gives how many chunks these are.
pub(crate) fn put_listed<S: Sink>(
    chunks: Chunks,
    found: &Comparison,
    out: &mut S,
) -> Result<u32, CommandFault>
    requires { IsSized chunks found.now }
    ensures { MatchResult result
        (λ count. (count ≡ count_set found.now.chunks.bytes found.now.chunks.chunks)
        × PutsOut S.Sink out.old out.new (list_text chunks found.now))
        (FailsOutput S.Sink out.new) }
{
    check_list_report(out, chunks, found)?;
    out.flush()?;
    Ok(found.chunks.count())
}
