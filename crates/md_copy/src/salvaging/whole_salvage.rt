// A member is salvaged.
ghost use Rattle.std.specs.Prelude.{◌≡◌, ◌<◌, ℕ, IfErr, IfOk, MatchResult, false, length};
ghost use Rattle.md_array.specs.Consistency.{IsConsistent};
ghost use Rattle.md_badblocks.specs.Runs.{IsBad};
ghost use Rattle.md_copy.specs.Readying.Ready.{IsReadyToCopy};
ghost use Rattle.md_copy.specs.Salvaging.Enrolling.{EndsSalvaged, EnrolsSalvaged};
ghost use Rattle.md_copy.specs.Salvaging.Filling.{AllAreFilled};
ghost use Rattle.md_copy.specs.Salvaging.Refused.{HasNotSalvaged};
ghost use Rattle.md_copy.specs.Salvaging.Salvaged.{HasSalvaged};
ghost use Rattle.md_copy.specs.Salvaging.Sectors.{AreSectorsHeld};
ghost use Rattle.md_copy.specs.Salvaging.Steps.{CannotSalvage, EndsSalvageReadied, FailsWhole, MaySalvage, MakesWhole, RefusesSalvage, Salvages, SalvagesReadied};
ghost use Rattle.md_copy.specs.Salvaging.Leaving.{MayLeaveSalvaged};
ghost use Rattle.md_copy.specs.Told.{IsToldOfSlots};
ghost use Rattle.md_kept_members.specs.View.{MemberView};
ghost use Rattle.md_copy.specs.Table.Orphans.{IsSetOf};
ghost use Rattle.md_state.specs.Members.{IsMember};

use crate::beginning::{RebuildFault, check_rebuild, keep_missing, table};
use crate::ending::{leave, store_until_done};
use crate::passes::make_pass;
use crate::readying::{lower_target, make_ready};
use crate::salvaging::laws::salvaged_by_call;
use crate::salvaging::losing::enrol_without;
use crate::salvaging::room::{sectors_to_list, unmark_listed};
use crate::salvaging::salvaged::Salvaged;
use crate::salvaging::sectors::salvage_left;
use md_array::Mirror;
use md_badblocks::BadSet;
use md_bitmap::Marks;
use md_cert::Planned;
use md_device::Device;
use md_kept_members::log_room;
use md_streams::Gate;
use std::alloc::Global;
use std::sync::Wait;
use std::thread::Threads;

/// Copies to the target, a spare or recovering, each sector of the chunks that it lacks that a member in sync gives. Chunks
/// that can be read whole come first, in the fewest rounds, as in a rebuild. A chunk that could not, or of which each member
/// lists a sector, is taken sector by sector from any member in sync that gives it, in long runs first. Sectors that none
/// gives are lost: they are listed on all members in sync, and on the target, which comes into sync then.
///
/// Where the log of one of them has no room for so many runs, good sectors that lie between two lost ones are listed
/// too, on all of them, and count as lost from then on: the narrowest gaps first, of the widest no more than it takes, and
/// each so that it saves an entry. Where the fewest entries there can be are too many, `LogFull` names a member whose log
/// has no room: the target, or where there is something to list, one in sync. It is found before anything is listed, so
/// that all lists are as before, in memory and on the devices. The target is recovering then, and has what was copied. A
/// target without a log can list none, and is refused at once.
pub fn salvage<D: Device + Drop + Send, G: Gate + Sync, R: Threads + Wait + Sync>(
    rt: &R,
    alloc: Global,
    mirror: &mut Mirror<D>,
    target: usize,
    gate: &G,
) -> Result<Salvaged, RebuildFault>
    requires within { target < length mirror.old.array.members }
    requires sound { IsConsistent mirror.old }
    ensures gives { MatchResult result (λ told. Salvages target told mirror.old mirror.new) (RefusesSalvage target mirror.old mirror.new) }
    ensures salvaged { IfOk result (λ told. HasSalvaged target told mirror.old mirror.new) }
    ensures refused { IfErr result (λ fault. HasNotSalvaged target fault mirror.old mirror.new) }
    ensures told { IfOk result (λ told. IsToldOfSlots G.Gate gate.now told.planned.plan.slots) }
    ensures sound { IsConsistent mirror.new }
{
    // For the proof: what comes of a salvage follows from its steps.
    salvaged_by_call();
    salvage_by_steps(rt, alloc, mirror, target, gate)
}

// The steps of a salvage.
fn salvage_by_steps<D: Device + Drop + Send, G: Gate + Sync, R: Threads + Wait + Sync>(
    rt: &R,
    alloc: Global,
    mirror: &mut Mirror<D>,
    target: usize,
    gate: &G,
) -> Result<Salvaged, RebuildFault>
    requires within { target < length mirror.old.array.members }
    requires sound { IsConsistent mirror.old }
    ensures gives { MatchResult result (λ told. Salvages target told mirror.old mirror.new) (RefusesSalvage target mirror.old mirror.new) }
    ensures told { IfOk result (λ told. IsToldOfSlots G.Gate gate.now told.planned.plan.slots) }
    ensures sound { IsConsistent mirror.new }
{
    check_salvage(mirror, target)?;
    let mut copied = match Marks::none(alloc, mirror.chunks().count()) {
        Ok(copied) => copied,
        Err(_) => return Err(RebuildFault::NoMemory),
    };
    lower_target(mirror, target, &copied);
    make_ready(alloc, mirror, target)?;
    match salvage_readied(rt, alloc, mirror, target, gate, &mut copied) {
        Ok(told) => Ok(told),
        Err(fault) => {
            leave(mirror, target, &mut copied, fault);
            Err(fault)
        }
    }
}

// Whether a salvage of the target may begin.
fn check_salvage<D: Device + Drop>(mirror: &Mirror<D>, target: usize) -> Result<(), RebuildFault>
    requires { target < length mirror.now.array.members }
    ensures { (m : MemberView) → IsMember mirror.now.array target m
        → MatchResult result (λ _. MaySalvage mirror.now.array m) (CannotSalvage target mirror.now.array m) }
{
    check_rebuild(mirror, target)?;
    if log_room(mirror.own(target)) == 0 {
        return Err(RebuildFault::LogFull(target));
    }
    Ok(())
}

// Whole chunks are copied, then sectors, and the target comes into sync.
fn salvage_readied<D: Device + Drop + Send, G: Gate + Sync, R: Threads + Wait + Sync>(
    rt: &R,
    alloc: Global,
    mirror: &mut Mirror<D>,
    target: usize,
    gate: &G,
    copied: &mut Marks,
) -> Result<Salvaged, RebuildFault>
    requires within { target < length mirror.old.array.members }
    requires ready { IsReadyToCopy target mirror.old }
    requires none { IsSetOf mirror.old.array (λ c. false) copied.old }
    ensures gives { (m : MemberView) → IsMember mirror.old.array target m → MatchResult result
        (SalvagesReadied target m copied.old mirror.old mirror.new)
        (EndsSalvageReadied target m copied.old copied.new mirror.old mirror.new) }
    ensures told { IfOk result (λ told. IsToldOfSlots G.Gate gate.now told.planned.plan.slots) }
    ensures leaves { IfErr result (MayLeaveSalvaged target copied.new mirror.new) }
    ensures sound { IsConsistent mirror.new }
{
    let planned = copy_whole(rt, alloc, mirror, target, gate, copied)?;
    let lost = salvage_left(alloc, mirror, target, copied)?;
    let listed = enrol_salvaged(alloc, mirror, target, copied, &lost)?;
    store_until_done(mirror);
    Ok(Salvaged {
        planned,
        lost,
        listed,
    })
}

// The target comes into sync, once it is found which sectors are listed: these are answered.
fn enrol_salvaged<D: Device + Drop>(
    alloc: Global,
    mirror: &mut Mirror<D>,
    target: usize,
    copied: &mut Marks,
    lost: &BadSet,
) -> Result<BadSet, RebuildFault>
    requires within { target < length mirror.old.array.members }
    requires ready { IsReadyToCopy target mirror.old }
    requires held { AreSectorsHeld mirror.old target copied.old }
    requires filled { AllAreFilled target mirror.old lost.now }
    requires low { (s : ℕ) → IsBad lost.now s → s < mirror.old.array.chunks.size }
    ensures gives { MatchResult result (EnrolsSalvaged target copied.old lost.now mirror.old mirror.new)
        (EndsSalvaged target copied.old copied.new lost.now mirror.old mirror.new) }
    ensures running { IfOk result (λ _. mirror.new.array.halted ≡ false) }
    ensures leaves { IfErr result (MayLeaveSalvaged target copied.new mirror.new) }
    ensures sound { IsConsistent mirror.new }
{
    keep_missing(mirror, target, copied);
    let missing = mirror.missing(alloc, target)?;
    let listed = sectors_to_list(alloc, mirror, target, &missing, lost)?;
    unmark_listed(mirror.chunks(), copied, &listed);
    enrol_without(alloc, mirror, target, &missing, copied, &listed)?;
    Ok(listed)
}

// One pass over what the target lacks.
fn copy_whole<D: Device + Drop + Send, G: Gate + Sync, R: Threads + Wait + Sync>(
    rt: &R,
    alloc: Global,
    mirror: &mut Mirror<D>,
    target: usize,
    gate: &G,
    copied: &mut Marks,
) -> Result<Planned, RebuildFault>
    requires within { target < length mirror.old.array.members }
    requires ready { IsReadyToCopy target mirror.old }
    requires none { IsSetOf mirror.old.array (λ c. false) copied.old }
    ensures gives { (m : MemberView) → IsMember mirror.old.array target m → MatchResult result
        (MakesWhole target m copied.old copied.new mirror.old mirror.new)
        (FailsWhole target m copied.old copied.new mirror.old mirror.new) }
    ensures told { IfOk result (λ planned. IsToldOfSlots G.Gate gate.now planned.plan.slots) }
    ensures leaves { IfErr result (MayLeaveSalvaged target copied.new mirror.new) }
    ensures sound { IsConsistent mirror.new }
{
    let rows = table(alloc, mirror, target)?;
    let passed = make_pass(rt, alloc, mirror, target, gate, &rows, copied)?;
    Ok(passed.planned)
}
