// The command that stops an array.
ghost use Rattle.std.specs.Prelude.{MatchResult};
ghost use Rattle.md_inflight.specs.Requests.Pending.{PendingView};
ghost use Rattle.md_state.specs.Requests.{IsPending};
ghost use Rattle.md_array.specs.Consistency.{IsConsistent};
ghost use Rattle.md_report.specs.AsText.WholeArray.SummaryReport.{summary_text};
ghost use Rattle.md_commands.specs.Stopping.{RefusesToStop, StopsArray};

use crate::output::put_summary;
use md_array::Mirror;
use md_device::Device;
use md_metadata::stop;
use md_refusals::CommandFault;
use md_streams::Sink;

/// Stops an array, and puts out what it is then in one line. It takes no memory.
pub fn stop_array<D: Device + Drop, S: Sink>(
    mirror: &mut Mirror<D>,
    out: &mut S,
) -> Result<(), CommandFault>
    requires sound { IsConsistent mirror.old }
    ensures gives { MatchResult result
        (λ _. StopsArray S.Sink summary_text mirror.old mirror.new out.old out.new)
        (RefusesToStop S.Sink mirror.old mirror.new out.old out.new) }
    ensures sound { IsConsistent mirror.new }
    ensures pending { (p : PendingView) → IsPending mirror.old.array p → IsPending mirror.new.array p }
{
    stop(mirror).map_err(CommandFault::Stop)?;
    put_summary(mirror, out)
}
