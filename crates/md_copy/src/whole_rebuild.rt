// A member is rebuilt.
ghost use Rattle.std.specs.Prelude.{◌≡◌, ◌<◌, IfErr, IfOk, MatchResult, false, length};
ghost use Rattle.md_array.specs.Consistency.{IsConsistent};
ghost use Rattle.md_kept_members.specs.View.{MemberView};
ghost use Rattle.md_state.specs.Members.{IsMember};
ghost use Rattle.md_copy.specs.Table.Orphans.{IsSetOf};
ghost use Rattle.md_copy.specs.Ending.Enrolled.{AreNoOrphans};
ghost use Rattle.md_copy.specs.Ending.Leaving.{MayRecordAtEnd};
ghost use Rattle.md_copy.specs.Readying.Ready.{IsReadyToCopy};
ghost use Rattle.md_copy.specs.Rebuilding.{RebuildsReadied, Rebuilds, RefusesRebuild, EndsAfterReady};
ghost use Rattle.md_copy.specs.Rebuilt.{HasRebuilt};
ghost use Rattle.md_copy.specs.Refused.{HasEnded};
ghost use Rattle.md_copy.specs.Told.{IsToldOfPlans};

use crate::beginning::{RebuildFault, check_rebuild};
use crate::ending::{Orphans, enrol_copied, leave, no_orphans, store_until_done};
use crate::passes::copy_passes;
use crate::readying::{lower_target, make_ready};
use crate::rebuilt::Rebuilt;
use md_array::Mirror;
use md_bitmap::Marks;
use md_device::Device;
use md_streams::Gate;
use std::alloc::Global;
use std::sync::Wait;
use std::thread::Threads;

/// Copies to the target, a spare or recovering, each chunk that it lacks and another member can give, in the
/// fewest rounds. Chunks that could not be read are listed as bad on the member that was to give them, and another
/// pass takes them from the others. Then the target is in sync, and lists the chunks that nobody could give. A
/// spare is admitted first, so that it is recovering from then on, whatever comes of the rebuild. How far it came
/// is recorded after each stretch of a pass, and before the fault is answered where passes end without memory,
/// without room in a log, or as a list can't be stored on a member.
pub fn rebuild<D: Device + Drop + Send, G: Gate + Sync, R: Threads + Wait + Sync>(
    rt: &R,
    alloc: Global,
    mirror: &mut Mirror<D>,
    target: usize,
    gate: &G,
) -> Result<Rebuilt, RebuildFault>
    requires within { target < length mirror.old.array.members }
    requires sound { IsConsistent mirror.old }
    ensures gives { MatchResult result (λ told. Rebuilds target told mirror.old mirror.new) (RefusesRebuild target mirror.old mirror.new) }
    ensures rebuilt { IfOk result (λ told. HasRebuilt target told mirror.old mirror.new) }
    ensures refused { IfErr result (λ fault. HasEnded target fault mirror.old mirror.new) }
    ensures told { IfOk result (λ told. IsToldOfPlans G.Gate gate.now told.plans.items) }
    ensures sound { IsConsistent mirror.new }
{
    rebuild_by_steps(rt, alloc, mirror, target, gate)
}

// What comes of it follows from its steps.
fn rebuild_by_steps<D: Device + Drop + Send, G: Gate + Sync, R: Threads + Wait + Sync>(
    rt: &R,
    alloc: Global,
    mirror: &mut Mirror<D>,
    target: usize,
    gate: &G,
) -> Result<Rebuilt, RebuildFault>
    requires within { target < length mirror.old.array.members }
    requires sound { IsConsistent mirror.old }
    ensures gives { MatchResult result (λ told. Rebuilds target told mirror.old mirror.new) (RefusesRebuild target mirror.old mirror.new) }
    ensures told { IfOk result (λ told. IsToldOfPlans G.Gate gate.now told.plans.items) }
    ensures sound { IsConsistent mirror.new }
{
    check_rebuild(mirror, target)?;
    let mut copied = match Marks::none(alloc, mirror.chunks().count()) {
        Ok(copied) => copied,
        Err(_) => return Err(RebuildFault::NoMemory),
    };
    let orphans = match no_orphans(alloc, copied.chunks()) {
        Ok(orphans) => orphans,
        Err(_) => return Err(RebuildFault::NoMemory),
    };
    lower_target(mirror, target, &copied);
    make_ready(alloc, mirror, target)?;
    match rebuild_readied(rt, alloc, mirror, target, gate, &mut copied, orphans) {
        Ok(told) => Ok(told),
        Err(fault) => {
            leave(mirror, target, &mut copied, fault);
            Err(fault)
        }
    }
}

// The passes are made, the target comes into sync, and the others are told.
fn rebuild_readied<D: Device + Drop + Send, G: Gate + Sync, R: Threads + Wait + Sync>(
    rt: &R,
    alloc: Global,
    mirror: &mut Mirror<D>,
    target: usize,
    gate: &G,
    copied: &mut Marks,
    orphans: Orphans,
) -> Result<Rebuilt, RebuildFault>
    requires within { target < length mirror.old.array.members }
    requires ready { IsReadyToCopy target mirror.old }
    requires none { IsSetOf mirror.old.array (λ c. false) copied.old }
    requires room { AreNoOrphans copied.old.chunks orphans }
    ensures gives { (m : MemberView) → IsMember mirror.old.array target m → MatchResult result
        (RebuildsReadied target m copied.old mirror.old mirror.new)
        (EndsAfterReady target m copied.old copied.new mirror.old mirror.new) }
    ensures told { IfOk result (λ told. IsToldOfPlans G.Gate gate.now told.plans.items) }
    ensures leaves { IfErr result (MayRecordAtEnd target copied.new mirror.new) }
    ensures sound { IsConsistent mirror.new }
{
    let plans = copy_passes(rt, alloc, mirror, target, gate, copied)?;
    let told = enrol_copied(alloc, mirror, target, plans, copied, orphans)?;
    store_until_done(mirror);
    Ok(told)
}
