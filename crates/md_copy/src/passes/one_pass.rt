// A pass over the devices of a mirror, among which the target's stands.
ghost use Rattle.std.specs.Prelude.{◌≡◌, ◌<◌, MatchResult, OnOk, length, remove, slice_index_or};
ghost use Rattle.std.specs.Int.{div_ceil};
ghost use Rattle.md_collect.specs.Collecting.{ArePlanned};
ghost use Rattle.md_collect.specs.Places.{HasRoom};
ghost use Rattle.md_pass.specs.Beside.{KeepsBeside};
ghost use Rattle.md_pass.specs.Copied.{AreUncopied, BreaksOff, EndsPass, pass_state};
ghost use Rattle.md_collect.specs.Workers.Queues.{AreOnlyRead};
ghost use Rattle.md_pass.specs.Sources.{MayRead, copy_of};
ghost use Rattle.md_copy.specs.Told.{IsToldOfSlots};

use md_bitmap::Marks;
use md_device::Device;
use md_pass::{BoardCounts, Pass, PassFault, Workers, copy_pass};
use md_streams::Gate;
use std::sync::Wait;
use std::thread::Threads;

/// One pass over the devices. The target's is out of the list meanwhile, and comes back to its place
/// whatever the answer is.
pub(crate) fn copy_beside<D: Device + Drop + Send, G: Gate + Sync, R: Threads + Wait + Sync>(
    workers: &Workers<'_, G, R>,
    pass: &Pass<'_>,
    devices: &mut Vec<D>,
    target: usize,
    copied: &mut Marks,
) -> Result<BoardCounts, PassFault>
    requires within { target < length devices.old.items }
    requires planned { ArePlanned pass.now.chunks pass.now.plan.now.slots }
    requires uncopied { AreUncopied pass.now.plan.now.slots copied.old }
    requires sources { MayRead D.Device pass.now.chunks pass.now.plan.now.slots pass.now.sources.now
        (remove devices.old.items target) }
    requires room { (d : D) → HasRoom (D.content (slice_index_or devices.old.items target d)) pass.now.offset pass.now.chunks }
    requires marks { copied.old.chunks ≡ div_ceil pass.now.chunks.size pass.now.chunks.sectors }

    ensures gives { (d : D) → MatchResult result
        (EndsPass D.Device (copy_of pass.now.plan.now.slots pass.now.chunks pass.now.offset) pass.now.sources.now
        (pass_state (remove devices.old.items target) (slice_index_or devices.old.items target d) copied.old)
        (pass_state (remove devices.new.items target) (slice_index_or devices.new.items target d) copied.new))
        (BreaksOff D.Device
        (pass_state (remove devices.old.items target) (slice_index_or devices.old.items target d) copied.old)
        (pass_state (remove devices.new.items target) (slice_index_or devices.new.items target d) copied.new)) }

    ensures told { OnOk result (IsToldOfSlots G.Gate workers.now.gate.now pass.now.plan.now.slots) }
    ensures as_many { length devices.new.items ≡ length devices.old.items }
    ensures others { AreOnlyRead D.Device (remove devices.old.items target) (remove devices.new.items target) }
    ensures target { (d : D) → KeepsBeside D.Device (copy_of pass.now.plan.now.slots pass.now.chunks pass.now.offset)
        (slice_index_or devices.old.items target d) (slice_index_or devices.new.items target d) }
{
    let mut device = devices.remove(target);
    let result = copy_pass(workers, pass, devices, &mut device, copied);
    if devices.insert(target, device).is_err() {
        unreachable!();
    }
    result
}
