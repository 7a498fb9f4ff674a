// The command that removes a member.
ghost use Rattle.std.specs.Prelude.{MatchResult, option_map};
ghost use Rattle.md_inflight.specs.Requests.Pending.{PendingView};
ghost use Rattle.md_state.specs.Steps.Remove.{Removes};
ghost use Rattle.md_state.specs.Requests.{IsPending};
ghost use Rattle.md_state.specs.View.{disk_of};
ghost use Rattle.md_array.specs.Consistency.{IsConsistent};
ghost use Rattle.md_report.specs.AsText.WholeArray.SummaryReport.{summary_text};
ghost use Rattle.md_commands.specs.Removing.{HandsBack, RefusesRemoving, RefusesToRemove, RemovesMember};
ghost use Rattle.md_commands.specs.Stopping.{StopsArrayAfter};

use crate::named_member::named_member;
use crate::stopping::stop_array;
use md_array::Mirror;
use md_device::Device;
use md_refusals::CommandFault;
use md_streams::Sink;

/// Removes the member with this index, then stops the array, and puts out what it is in one line. The device
/// of the member comes back, also where the array is not stopped or shown after it left; where none left
/// there is none. It takes no memory.
///
/// Nothing is written to the device. In a fault of the stop later members are counted without it.
///
///     let mut out = Output::new(rt.stdout());
///     let (device, removed) = remove_member(&mut mirror, 1, &mut out);
///     removed?; // it has put out `in sync 1 of 2, events 6, marked 1`
pub fn remove_member<D: Device + Drop, S: Sink>(
    mirror: &mut Mirror<D>,
    member: u32,
    out: &mut S,
) -> (Option<D>, Result<(), CommandFault>)
    requires sound { IsConsistent mirror.old }
    ensures gives { MatchResult result.1
        (λ _. StopsArrayAfter S.Sink summary_text (RemovesMember member mirror.old) mirror.new out.old
        out.new)
        (RefusesToRemove S.Sink member mirror.old mirror.new out.old out.new) }
    ensures device { HandsBack member mirror.old.disks mirror.new.disks
        (option_map (disk_of D.Device) result.0) }
    ensures sound { IsConsistent mirror.new }
    ensures pending { (p : PendingView) → IsPending mirror.old.array p → IsPending mirror.new.array p }
{
    match remove_named(mirror, member) {
        Ok(device) => {
            let stopped = stop_array(mirror, out);
            (Some(device), stopped)
        }
        Err(fault) => (None, Err(fault)),
    }
}

// Removes the member with this index, and hands its device back.
fn remove_named<D: Device + Drop>(mirror: &mut Mirror<D>, member: u32) -> Result<D, CommandFault>
    requires sound { IsConsistent mirror.old }
    ensures gives { MatchResult result
        (λ d. Removes member (disk_of D.Device d) mirror.old mirror.new)
        (RefusesRemoving member mirror.old mirror.new) }
    ensures sound { IsConsistent mirror.new }
    ensures pending { (p : PendingView) → IsPending mirror.old.array p → IsPending mirror.new.array p }
{
    let k = named_member(mirror, member)?;
    mirror.remove(k).map_err(CommandFault::Remove)
}
