// The target gets chunks.
ghost use Rattle.std.specs.Prelude.{◌≡◌, ◌<◌, MatchResult, OnOk, length, true};
ghost use Rattle.std.specs.Int.{div_ceil};
ghost use Rattle.md_kept_members.specs.View.{MemberView};
ghost use Rattle.md_pass.specs.Copied.{AreUncopied, OnFault};
ghost use Rattle.md_state.specs.Steps.MakeClean.{IsIdle};
ghost use Rattle.md_state.specs.Members.{IsMember};
ghost use Rattle.md_state.specs.Missing.{is_rebuilt};
ghost use Rattle.md_array.specs.Consistency.{IsConsistent};
ghost use Rattle.md_copy.specs.Passes.Filling.{BreaksPass, FailsOnWrite, FillsPass};
ghost use Rattle.md_copy.specs.Passes.RebuildSources.{AreSources, IsPlanOf};
ghost use Rattle.md_copy.specs.Told.{IsToldOfSlots};

use crate::beginning::RebuildFault;
use crate::passes::one_pass::copy_beside;
use md_array::Mirror;
use md_bitmap::Marks;
use md_cert::Plan;
use md_device::Device;
use md_pass::{BoardCounts, Pass, PassFault, Source, Workers};
use md_streams::Gate;
use std::sync::Wait;
use std::thread::Threads;

/// Copies what is planned to the target, as far as its sources give it.
/// Whatever becomes of it, the devices are back in their places. Where memory is refused, nothing was read.
pub(crate) fn fill<D: Device + Drop + Send, G: Gate + Sync, R: Threads + Wait + Sync>(
    workers: &Workers<'_, G, R>,
    mirror: &mut Mirror<D>,
    target: usize,
    plan: &Plan,
    sources: &[Source],
    copied: &mut Marks,
) -> Result<u32, RebuildFault>
    requires within { target < length mirror.old.array.members }
    requires sound { IsConsistent mirror.old }
    requires idle { IsIdle mirror.old.array }
    requires target { (m : MemberView) → IsMember mirror.old.array target m → is_rebuilt m.state ≡ true }
    requires planned { (m : MemberView) → IsMember mirror.old.array target m → IsPlanOf mirror.old.array m plan.now }
    requires sources { AreSources mirror.old target plan.now.slots sources.now }
    requires marks { copied.old.chunks ≡ div_ceil mirror.old.array.chunks.size mirror.old.array.chunks.sectors }
    requires uncopied { AreUncopied plan.now.slots copied.old }

    ensures gives { (m : MemberView) → IsMember mirror.old.array target m → MatchResult result
        (FillsPass target m plan.now.slots copied.old copied.new mirror.old mirror.new)
        (BreaksPass target m plan.now.slots copied.old copied.new mirror.old mirror.new) }
    ensures told { OnOk result (IsToldOfSlots G.Gate workers.now.gate.now plan.now.slots) }
    ensures sound { IsConsistent mirror.new }
{
    let result = fill_devices(workers, mirror, target, plan, sources, copied);
    match result {
        Ok(counts) => Ok(counts.failed),
        Err(PassFault::NoMemory) => Err(RebuildFault::NoMemory),
        Err(PassFault::TargetFault) => Err(RebuildFault::TargetFault),
    }
}

// The devices are lent, and the pass is made over them.
fn fill_devices<D: Device + Drop + Send, G: Gate + Sync, R: Threads + Wait + Sync>(
    workers: &Workers<'_, G, R>,
    mirror: &mut Mirror<D>,
    target: usize,
    plan: &Plan,
    sources: &[Source],
    copied: &mut Marks,
) -> Result<BoardCounts, PassFault>
    requires within { target < length mirror.old.array.members }
    requires sound { IsConsistent mirror.old }
    requires idle { IsIdle mirror.old.array }
    requires target { (m : MemberView) → IsMember mirror.old.array target m → is_rebuilt m.state ≡ true }
    requires planned { (m : MemberView) → IsMember mirror.old.array target m → IsPlanOf mirror.old.array m plan.now }
    requires sources { AreSources mirror.old target plan.now.slots sources.now }
    requires marks { copied.old.chunks ≡ div_ceil mirror.old.array.chunks.size mirror.old.array.chunks.sectors }
    requires uncopied { AreUncopied plan.now.slots copied.old }

    ensures gives { (m : MemberView) → IsMember mirror.old.array target m → MatchResult result
        (λ counts. FillsPass target m plan.now.slots copied.old copied.new mirror.old mirror.new counts.failed)
        (OnFault ((copied.new ≡ copied.old) × (mirror.new ≡ mirror.old))
        (FailsOnWrite target m plan.now.slots mirror.old mirror.new)) }
    ensures told { OnOk result (IsToldOfSlots G.Gate workers.now.gate.now plan.now.slots) }
    ensures sound { IsConsistent mirror.new }
{
    let pass = Pass {
        plan: &*plan,
        chunks: mirror.chunks(),
        sources: &*sources,
        offset: mirror.own(target).data_offset,
    };
    let devices = mirror.lend();
    copy_beside(workers, &pass, devices, target, copied)
}
