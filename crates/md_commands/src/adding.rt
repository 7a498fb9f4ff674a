// The command that adds a device.
ghost use Rattle.std.specs.Prelude.{MatchResult, codes, option_map};
ghost use Rattle.md_inflight.specs.Requests.Pending.{PendingView};
ghost use Rattle.md_state.specs.Requests.{IsPending};
ghost use Rattle.md_state.specs.View.{disk_of};
ghost use Rattle.md_array.specs.Consistency.{IsConsistent};
ghost use Rattle.md_report.specs.AsText.WholeArray.SummaryReport.{summary_text};
ghost use Rattle.md_report.specs.AsJson.WholeArray.MemberObjects.{texts_of};
ghost use Rattle.md_commands.specs.Adding.{AddsDevice, KeepsDevice, RefusesJoining};
ghost use Rattle.md_commands.specs.Objects.{summary_line};
ghost use Rattle.md_commands.specs.Stopping.{StopsArrayAfter};

use crate::stopped_object::stop_as_object;
use crate::stopping::stop_array;
use md_array::Mirror;
use md_device::Device;
use md_refusals::CommandFault;
use md_streams::Sink;
use std::alloc::Global;

/// Adds a device to the array as a spare, then stops the array, and puts out what it is in one line. What
/// the device held is lost. A device that does not join comes back: as it was, unless a write to it failed,
/// which is `Add` with `WriteFault`. One that joined is the mirror's, its last, also where the array is not
/// stopped or shown after that.
///
///     let mut out = Output::new(rt.stdout());
///     let (device, added) = add_device(rt.alloc(), &mut mirror, device, &mut out);
///     added?; // it has put out `in sync 2 of 3, events 2, marked 0`
pub fn add_device<D: Device + Drop, S: Sink>(
    alloc: Global,
    mirror: &mut Mirror<D>,
    device: D,
    out: &mut S,
) -> (Option<D>, Result<(), CommandFault>)
    requires sound { IsConsistent mirror.old }
    ensures gives { MatchResult result.1
        (λ _. StopsArrayAfter S.Sink summary_text (AddsDevice (disk_of D.Device device) mirror.old) mirror.new
        out.old out.new)
        (RefusesJoining S.Sink (disk_of D.Device device) (option_map (disk_of D.Device) result.0) mirror.old
        mirror.new out.old out.new) }
    ensures device { KeepsDevice mirror.old.disks mirror.new.disks (option_map (disk_of D.Device) result.0) }
    ensures sound { IsConsistent mirror.new }
    ensures pending { (p : PendingView) → IsPending mirror.old.array p → IsPending mirror.new.array p }
{
    match mirror.add(alloc, device) {
        Ok(_) => {
            let stopped = stop_array(mirror, out);
            (None, stopped)
        }
        Err((device, fault)) => (Some(device), Err(CommandFault::Add(fault))),
    }
}

/// Adds a device as `add_device` does, and puts out what the array is then as a JSON object, of whose members these are the
/// images, that of the device last.
pub fn add_device_json<D: Device + Drop, S: Sink>(
    alloc: Global,
    mirror: &mut Mirror<D>,
    device: D,
    images: &[&str],
    out: &mut S,
) -> (Option<D>, Result<(), CommandFault>)
    requires sound { IsConsistent mirror.old }
    ensures gives { MatchResult result.1
        (λ _. StopsArrayAfter S.Sink (summary_line (codes "add") (texts_of images.now))
        (AddsDevice (disk_of D.Device device) mirror.old) mirror.new out.old out.new)
        (RefusesJoining S.Sink (disk_of D.Device device) (option_map (disk_of D.Device) result.0) mirror.old
        mirror.new out.old out.new) }
    ensures device { KeepsDevice mirror.old.disks mirror.new.disks (option_map (disk_of D.Device) result.0) }
    ensures sound { IsConsistent mirror.new }
    ensures pending { (p : PendingView) → IsPending mirror.old.array p → IsPending mirror.new.array p }
{
    match mirror.add(alloc, device) {
        Ok(_) => {
            let stopped = stop_as_object(mirror, "add", images, out);
            (None, stopped)
        }
        Err((back, fault)) => (Some(back), Err(CommandFault::Add(fault))),
    }
}
