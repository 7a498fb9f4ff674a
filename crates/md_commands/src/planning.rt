// The command that plans the rebuild of a member.
ghost use Rattle.std.specs.Prelude.{◌<◌, MatchResult, length};
ghost use Rattle.md_array.specs.Consistency.{IsConsistent};
ghost use Rattle.md_report.specs.AsJson.WholeArray.MemberObjects.{texts_of};
ghost use Rattle.md_report.specs.AsText.Rebuilds.RebuiltReport.{planned_text};
ghost use Rattle.md_commands.specs.Planning.{IsRebuildPlan, RefusesPlan, RefusesPlanTarget, RefusesToPlan, ShowsPlan};
ghost use Rattle.md_commands.specs.Objects.{planned_line};

use crate::objects::put_plan_json;
use crate::output::put_plan;
use md_array::Mirror;
use md_cert::Planned;
use md_copy::{RebuildFault, table};
use md_device::Device;
use md_plan::plan;
use md_refusals::CommandFault;
use md_streams::Sink;
use std::alloc::Global;

/// Puts out the plan of a rebuild of the member with this index: which chunk it would get from which other member, in as
/// few rounds as can be. The array stays as it is.
///
///     let mut out = Output::new(rt.stdout());
///     show_plan(rt.alloc(), &mirror, 2, &mut out)?;
pub fn show_plan<D: Device + Drop, S: Sink>(
    alloc: Global,
    mirror: &Mirror<D>,
    member: u32,
    out: &mut S,
) -> Result<(), CommandFault>
    requires sound { IsConsistent mirror.now }
    ensures { MatchResult result
        (λ _. ShowsPlan S.Sink mirror.now.array member out.old out.new planned_text)
        (RefusesToPlan S.Sink mirror.now.array member out.old out.new) }
{
    let planned = plan_rebuild(alloc, mirror, member)?;
    put_plan(&planned, out)
}

/// Puts out the same as a JSON object, of whose members these are the images.
pub fn show_plan_json<D: Device + Drop, S: Sink>(
    alloc: Global,
    mirror: &Mirror<D>,
    member: u32,
    images: &[&str],
    out: &mut S,
) -> Result<(), CommandFault>
    requires sound { IsConsistent mirror.now }
    ensures { MatchResult result
        (λ _. ShowsPlan S.Sink mirror.now.array member out.old out.new
        (planned_line mirror.now.array (texts_of images.now)))
        (RefusesToPlan S.Sink mirror.now.array member out.old out.new) }
{
    let planned = plan_rebuild(alloc, mirror, member)?;
    put_plan_json(&planned, mirror, images, out)
}

// Plans a rebuild of the member with this index.
fn plan_rebuild<D: Device + Drop>(
    alloc: Global,
    mirror: &Mirror<D>,
    member: u32,
) -> Result<Planned, CommandFault>
    requires sound { IsConsistent mirror.now }
    ensures { MatchResult result
        (IsRebuildPlan mirror.now.array member) (RefusesPlan mirror.now.array member) }
{
    let target = member as usize;
    if target >= mirror.members() {
        return Err(CommandFault::BadMember);
    }
    match plan_target(alloc, mirror, target) {
        Ok(planned) => Ok(planned),
        Err(fault) => Err(CommandFault::Rebuild(fault)),
    }
}

fn plan_target<D: Device + Drop>(
    alloc: Global,
    mirror: &Mirror<D>,
    target: usize,
) -> Result<Planned, RebuildFault>
    requires within { target < length mirror.now.array.members }
    requires sound { IsConsistent mirror.now }
    ensures { MatchResult result
        (IsRebuildPlan mirror.now.array target) (RefusesPlanTarget mirror.now.array target) }
{
    let missing = table(alloc, mirror, target)?;
    Ok(plan(alloc, &missing)?)
}
