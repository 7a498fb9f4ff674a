// The command that stops an array, which is then shown as an object.
ghost use Rattle.std.specs.Prelude.{MatchResult, codes};
ghost use Rattle.md_inflight.specs.Requests.Pending.{PendingView};
ghost use Rattle.md_state.specs.Requests.{IsPending};
ghost use Rattle.md_array.specs.Consistency.{IsConsistent};
ghost use Rattle.md_report.specs.AsJson.WholeArray.MemberObjects.{texts_of};
ghost use Rattle.md_commands.specs.Objects.{summary_line};
ghost use Rattle.md_commands.specs.Stopping.{RefusesToStop, StopsArray};

use crate::objects::put_summary_json;
use md_array::Mirror;
use md_device::Device;
use md_metadata::stop;
use md_refusals::CommandFault;
use md_streams::Sink;

/// Stops an array, and puts out what it is then as a JSON object, of whose members these are the images. It takes no memory.
pub fn stop_array_json<D: Device + Drop, S: Sink>(
    mirror: &mut Mirror<D>,
    images: &[&str],
    out: &mut S,
) -> Result<(), CommandFault>
    requires sound { IsConsistent mirror.old }
    ensures gives { MatchResult result
        (λ _. StopsArray S.Sink (summary_line (codes "stop") (texts_of images.now)) mirror.old mirror.new
        out.old out.new)
        (RefusesToStop S.Sink mirror.old mirror.new out.old out.new) }
    ensures sound { IsConsistent mirror.new }
    ensures pending { (p : PendingView) → IsPending mirror.old.array p → IsPending mirror.new.array p }
{
    stop_as_object(mirror, "stop", images, out)
}

/// Stops an array, and puts out what it is then as the object of the command that stops it.
pub(crate) fn stop_as_object<D: Device + Drop, S: Sink>(
    mirror: &mut Mirror<D>,
    kind: &str,
    images: &[&str],
    out: &mut S,
) -> Result<(), CommandFault>
    requires sound { IsConsistent mirror.old }
    ensures gives { MatchResult result
        (λ _. StopsArray S.Sink (summary_line kind.now (texts_of images.now)) mirror.old mirror.new
        out.old out.new)
        (RefusesToStop S.Sink mirror.old mirror.new out.old out.new) }
    ensures sound { IsConsistent mirror.new }
    ensures pending { (p : PendingView) → IsPending mirror.old.array p → IsPending mirror.new.array p }
{
    stop(mirror).map_err(CommandFault::Stop)?;
    put_summary_json(mirror, kind, images, out)
}
