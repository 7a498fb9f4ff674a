// The command that takes a device back.
ghost use Rattle.std.specs.Prelude.{◌≡◌, ◌<◌, MatchResult, codes, length, option_map};
ghost use Rattle.md_inflight.specs.Requests.Pending.{PendingView};
ghost use Rattle.md_state.specs.Requests.{IsPending};
ghost use Rattle.md_state.specs.View.{disk_of};
ghost use Rattle.md_array.specs.Consistency.{IsConsistent};
ghost use Rattle.md_report.specs.AsText.WholeArray.SummaryReport.{summary_text};
ghost use Rattle.md_report.specs.AsJson.WholeArray.MemberObjects.{texts_of};
ghost use Rattle.md_commands.specs.Adding.{KeepsDevice};
ghost use Rattle.md_commands.specs.Objects.{summary_line};
ghost use Rattle.md_commands.specs.ReAdding.{ReAddsDevice, RebuildsMember, RefusesRebuilding, RefusesToReAdd};
ghost use Rattle.md_commands.specs.Stopping.{StopsArrayAfter};

use crate::rebuilding::rebuild_watched;
use crate::resyncing::resync_if_needed;
use crate::stopped_object::stop_as_object;
use crate::stopping::stop_array;
use md_array::Mirror;
use md_device::Device;
use md_metadata::{RebuildExtent, come_back};
use md_refusals::CommandFault;
use md_streams::{Sink, Watch};
use std::alloc::Global;
use std::sync::Wait;
use std::thread::Threads;

/// A device that comes back, and what it gets.
#[derive(Drop)]
pub struct Returning<D: Device + Drop> {
    pub device: D,
    /// The marked chunks, all else of its data being taken for the array's, or all chunks.
    pub extent: RebuildExtent,
}

/// Takes a device back that left this array, rebuilds it, then stops the array, and puts out what it is in one
/// line. A degraded array that is not resynced is resynced first. A device that does not come back is handed back: as it
/// was, unless a write to it failed, which is `ReAdd` with `WriteFault`. One that came back is the mirror's, its last, also
/// where it is not rebuilt, or the array not stopped or shown after that.
///
///     let mut out = Output::new(rt.stdout());
///     let extent = RebuildExtent::Marked;
///     let returning = Returning { device, extent };
///     let (device, re_added) = re_add_device(&rt, rt.alloc(), &mut mirror, returning, &watch, &mut out);
///     re_added?; // it has put out `in sync 2 of 2, events 8, marked 0`
pub fn re_add_device<D: Device + Drop + Send, W: Watch + Sync, S: Sink, T: Threads + Wait + Sync>(
    rt: &T,
    alloc: Global,
    mirror: &mut Mirror<D>,
    returning: Returning<D>,
    watch: &W,
    out: &mut S,
) -> (Option<D>, Result<(), CommandFault>)
    requires sound { IsConsistent mirror.old }
    ensures gives { MatchResult result.1
        (λ _. StopsArrayAfter S.Sink summary_text
        (ReAddsDevice returning.extent (disk_of D.Device returning.device) mirror.old) mirror.new
        out.old out.new)
        (RefusesToReAdd S.Sink returning.extent (disk_of D.Device returning.device)
        (option_map (disk_of D.Device) result.0) mirror.old mirror.new out.old out.new) }
    ensures device { KeepsDevice mirror.old.disks mirror.new.disks (option_map (disk_of D.Device) result.0) }
    ensures sound { IsConsistent mirror.new }
    ensures pending { (p : PendingView) → IsPending mirror.old.array p → IsPending mirror.new.array p }
{
    let Returning { device, extent } = returning;
    if let Err(fault) = resync_if_needed(alloc, mirror) {
        return (Some(device), Err(CommandFault::Resync(fault)));
    }
    match come_back(alloc, mirror, device, extent) {
        Ok(k) => {
            let shown = rebuild_and_show(rt, alloc, mirror, k, watch, out);
            (None, shown)
        }
        Err((back, fault)) => (Some(back), Err(CommandFault::ReAdd(fault))),
    }
}

/// Takes a device back as `re_add_device` does, and puts out what the array is then as a JSON object, of whose members these are the
/// images, that of the device last.
pub fn re_add_device_json<
    D: Device + Drop + Send,
    W: Watch + Sync,
    S: Sink,
    T: Threads + Wait + Sync,
>(
    rt: &T,
    alloc: Global,
    mirror: &mut Mirror<D>,
    returning: Returning<D>,
    images: &[&str],
    watch: &W,
    out: &mut S,
) -> (Option<D>, Result<(), CommandFault>)
    requires sound { IsConsistent mirror.old }
    ensures gives { MatchResult result.1
        (λ _. StopsArrayAfter S.Sink (summary_line (codes "re-add") (texts_of images.now))
        (ReAddsDevice returning.extent (disk_of D.Device returning.device) mirror.old) mirror.new
        out.old out.new)
        (RefusesToReAdd S.Sink returning.extent (disk_of D.Device returning.device)
        (option_map (disk_of D.Device) result.0) mirror.old mirror.new out.old out.new) }
    ensures device { KeepsDevice mirror.old.disks mirror.new.disks (option_map (disk_of D.Device) result.0) }
    ensures sound { IsConsistent mirror.new }
    ensures pending { (p : PendingView) → IsPending mirror.old.array p → IsPending mirror.new.array p }
{
    let Returning { device, extent } = returning;
    if let Err(fault) = resync_if_needed(alloc, mirror) {
        return (Some(device), Err(CommandFault::Resync(fault)));
    }
    match come_back(alloc, mirror, device, extent) {
        Ok(k) => {
            let shown = rebuild_as_object(rt, alloc, mirror, k, images, watch, out);
            (None, shown)
        }
        Err((back, fault)) => (Some(back), Err(CommandFault::ReAdd(fault))),
    }
}

// Rebuilds member k, stops the array, and shows it.
fn rebuild_and_show<D: Device + Drop + Send, W: Watch + Sync, S: Sink, T: Threads + Wait + Sync>(
    rt: &T,
    alloc: Global,
    mirror: &mut Mirror<D>,
    k: usize,
    watch: &W,
    out: &mut S,
) -> Result<(), CommandFault>
    requires member { k < length mirror.old.array.members }
    requires sound { IsConsistent mirror.old }
    ensures gives { MatchResult result
        (λ _. StopsArrayAfter S.Sink summary_text (RebuildsMember k mirror.old) mirror.new out.old
        out.new)
        (RefusesRebuilding S.Sink k mirror.old mirror.new out.old out.new) }
    ensures sound { IsConsistent mirror.new }
    ensures pending { (p : PendingView) → IsPending mirror.old.array p → IsPending mirror.new.array p }
{
    let rebuilt = rebuild_watched(rt, alloc, mirror, k, watch).map_err(CommandFault::Rebuild)?;
    drop(rebuilt);
    stop_array(mirror, out)
}

// Rebuilds member k, stops the array, and shows it as the object of `re-add`.
fn rebuild_as_object<D: Device + Drop + Send, W: Watch + Sync, S: Sink, T: Threads + Wait + Sync>(
    rt: &T,
    alloc: Global,
    mirror: &mut Mirror<D>,
    k: usize,
    images: &[&str],
    watch: &W,
    out: &mut S,
) -> Result<(), CommandFault>
    requires member { k < length mirror.old.array.members }
    requires sound { IsConsistent mirror.old }
    ensures gives { MatchResult result
        (λ _. StopsArrayAfter S.Sink (summary_line (codes "re-add") (texts_of images.now))
        (RebuildsMember k mirror.old) mirror.new out.old out.new)
        (RefusesRebuilding S.Sink k mirror.old mirror.new out.old out.new) }
    ensures sound { IsConsistent mirror.new }
    ensures pending { (p : PendingView) → IsPending mirror.old.array p → IsPending mirror.new.array p }
{
    let rebuilt = rebuild_watched(rt, alloc, mirror, k, watch).map_err(CommandFault::Rebuild)?;
    drop(rebuilt);
    stop_as_object(mirror, "re-add", images, out)
}
