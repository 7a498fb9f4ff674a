// What a command puts out as a JSON object.
ghost use Rattle.std.specs.Prelude.{◌≡◌, MatchResult};
ghost use Rattle.md_bitmap.specs.Marks.{count_set};
ghost use Rattle.md_collect.specs.Found.{IsSized};
ghost use Rattle.md_report.specs.AsJson.WholeArray.MemberObjects.{texts_of};
ghost use Rattle.md_commands.specs.Objects.{checked_line, detail_line, planned_line, rebuilt_object_line, summary_line};
ghost use Rattle.md_refusals.specs.Output.{FailsOutput};
ghost use Rattle.md_streams.specs.Putting.{PutsOut};
ghost use Rattle.md_commands.specs.Salvaging.{salvaged_object_line};

use md_array::Mirror;
use md_cert::Planned;
use md_collect::Comparison;
use md_copy::{Rebuilt, Salvaged};
use md_device::Device;
use md_refusals::CommandFault;
use md_report::{check_json, detail_json, plan_json, rebuilt_json, salvaged_json, summary_json};
use md_streams::Sink;

/// Puts out an array in short, for a command of this name.
pub(crate) fn put_summary_json<D: Device + Drop, S: Sink>(
    mirror: &Mirror<D>,
    kind: &str,
    images: &[&str],
    out: &mut S,
) -> Result<(), CommandFault>
    ensures { MatchResult result
        (λ _. PutsOut S.Sink out.old out.new (summary_line kind.now (texts_of images.now) mirror.now.array))
        (FailsOutput S.Sink out.new) }
{
    summary_json(out, kind, mirror, images)?;
    out.flush()?;
    Ok(())
}

/// Puts out an array with the state of each member.
pub(crate) fn put_detail_json<D: Device + Drop, S: Sink>(
    mirror: &Mirror<D>,
    images: &[&str],
    out: &mut S,
) -> Result<(), CommandFault>
    ensures { MatchResult result
        (λ _. PutsOut S.Sink out.old out.new (detail_line (texts_of images.now) mirror.now.array))
        (FailsOutput S.Sink out.new) }
{
    detail_json(out, mirror, images)?;
    out.flush()?;
    Ok(())
}

/// Puts out what was rebuilt of the member with this index.
pub(crate) fn put_rebuilt_json<S: Sink>(
    rebuilt: &Rebuilt,
    member: u32,
    out: &mut S,
) -> Result<(), CommandFault>
    ensures { MatchResult result
        (λ _. PutsOut S.Sink out.old out.new (rebuilt_object_line member rebuilt.now))
        (FailsOutput S.Sink out.new) }
{
    let orphans = rebuilt.orphans.as_slice();
    rebuilt_json(out, member, rebuilt.passes, orphans)?;
    out.flush()?;
    Ok(())
}

/// Puts out what was rebuilt of the member with this index, and which sectors are lost.
pub(crate) fn put_salvaged_json<S: Sink>(
    salvaged: &Salvaged,
    member: u32,
    out: &mut S,
) -> Result<(), CommandFault>
    ensures { MatchResult result
        (λ _. PutsOut S.Sink out.old out.new (salvaged_object_line member salvaged.now))
        (FailsOutput S.Sink out.new) }
{
    salvaged_json(out, member, &salvaged.lost, &salvaged.listed)?;
    out.flush()?;
    Ok(())
}

/// Puts out a plan.
pub(crate) fn put_plan_json<D: Device + Drop, S: Sink>(
    planned: &Planned,
    mirror: &Mirror<D>,
    images: &[&str],
    out: &mut S,
) -> Result<(), CommandFault>
    ensures { MatchResult result
        (λ _. PutsOut S.Sink out.old out.new
        (planned_line mirror.now.array (texts_of images.now) planned.now))
        (FailsOutput S.Sink out.new) }
{
    let orphans = planned.orphans.as_slice();
    plan_json(
        out,
        &planned.plan,
        &planned.certificate,
        orphans,
        mirror,
        images,
    )?;
    out.flush()?;
    Ok(())
}

/// Puts out in which chunks members in sync differ, and which, and gives how many chunks these are.
pub(crate) fn put_check_json<D: Device + Drop, S: Sink>(
    found: &Comparison,
    mirror: &Mirror<D>,
    images: &[&str],
    out: &mut S,
) -> Result<u32, CommandFault>
    requires { IsSized mirror.now.array.chunks found.now }
    ensures { MatchResult result
        (λ count. (count ≡ count_set found.now.chunks.bytes found.now.chunks.chunks)
        × PutsOut S.Sink out.old out.new
        (checked_line mirror.now.array (texts_of images.now) found.now))
        (FailsOutput S.Sink out.new) }
{
    check_json(out, found, mirror, images)?;
    out.flush()?;
    Ok(found.chunks.count())
}
