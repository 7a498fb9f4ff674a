// The report of a rebuild.
ghost use Rattle.std.specs.List.{flat_map};
ghost use Rattle.md_streams.specs.Sink.{PutsOrFails};
ghost use Rattle.md_report.specs.AsText.Rebuilds.RebuiltReport.{planned_text, rebuilt_line, rebuilt_text};

use crate::as_text::rebuilds::plan_lines::plan_report;
use md_cert::Planned;
use md_streams::{Sink, SinkFault, number_after};

/// Writes the plan of each pass of a rebuild, and then one line: the member by its index, how many passes
/// there were, and how many chunks no source had. It takes no memory, and fails only where the sink has
/// failed.
#[tactic(auto, unfolding(crate::specs::AsText::Rebuilds::RebuiltReport::rebuilt_text), using(md_streams::proofs::Puts::puts_then))]
pub fn rebuilt_report<S: Sink>(
    out: &mut S,
    member: u32,
    passes: u32,
    plans: &[Planned],
    orphans: usize,
) -> Result<(), SinkFault>
    ensures { PutsOrFails S.contents S.failed out.old out.new (rebuilt_text member passes plans.now orphans) result }
{
    plan_reports(out, plans)?;
    rebuilt_line_report(out, member, passes, orphans)?;
    Ok(())
}

fn plan_reports<S: Sink>(out: &mut S, plans: &[Planned]) -> Result<(), SinkFault>
    ensures { PutsOrFails S.contents S.failed out.old out.new (flat_map planned_text plans.now) result }
{
    for planned in plans {
        planned_report(out, planned)?;
    }
    Ok(())
}

/// Writes the plan of a pass.
pub(crate) fn planned_report<S: Sink>(out: &mut S, planned: &Planned) -> Result<(), SinkFault>
    ensures { PutsOrFails S.contents S.failed out.old out.new (planned_text planned.now) result }
{
    let orphans = planned.orphans.as_slice();
    plan_report(out, &planned.plan, &planned.certificate, orphans)
}

/// Writes that line alone.
#[tactic(auto, unfolding(crate::specs::AsText::Rebuilds::RebuiltReport::rebuilt_line), using(md_streams::proofs::Puts::puts_then))]
pub fn rebuilt_line_report<S: Sink>(
    out: &mut S,
    member: u32,
    passes: u32,
    orphans: usize,
) -> Result<(), SinkFault>
    ensures { PutsOrFails S.contents S.failed out.old out.new (rebuilt_line member passes orphans) result }
{
    number_after(out, b"rebuilt member ", member)?;
    number_after(out, b", passes ", passes)?;
    number_after(out, b", orphans ", orphans)?;
    out.put(b"\n")?;
    Ok(())
}
