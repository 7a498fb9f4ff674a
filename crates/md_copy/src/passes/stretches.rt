// A pass is made in stretches, and after each it is recorded how far the target is rebuilt.
ghost use Rattle.std.specs.Prelude.{◌≡◌, ◌<◌, All, IfOk, MatchResult, OnOk, length};
ghost use Rattle.md_array.specs.Consistency.{IsConsistent};
ghost use Rattle.md_copy.specs.Passes.Held.{AreHeld};
ghost use Rattle.md_copy.specs.Readying.Ready.{IsReadyToCopy};
ghost use Rattle.md_copy.specs.Passes.Stretches.{AreLeft, FailsStretch, FailsWithin, RecordsStretch, RecordsStretches, slots_after, slots_before, stretch_rounds};
ghost use Rattle.md_copy.specs.Told.{IsToldOfSlots};

use crate::beginning::RebuildFault;
use crate::passes::fill::fill;
use crate::passes::sources::sources_of;
use md_array::{Mirror, TargetFault};
use md_bitmap::{Chunks, Marks};
use md_cert::{Plan, Slot, Slots};
use md_device::Device;
use md_pass::Workers;
use md_streams::Gate;
use std::alloc::{AllocError, Global};
use std::sync::Wait;
use std::thread::Threads;

// In sectors.
const LEAST_STRETCH: u32 = 256 * 2048;

/// How many rounds of a pass of so many make a stretch.
pub(crate) fn stretch_rounds(chunks: Chunks, rounds: u32) -> u32
    ensures { result ≡ stretch_rounds chunks rounds }
{
    let least = LEAST_STRETCH.div_ceil(chunks.sectors).max(16);
    least.max(rounds.div_ceil(64))
}

/// Copies the slots of a plan in stretches of so many rounds, and records after each how far the target is rebuilt.
pub(crate) fn copy_stretches<D: Device + Drop + Send, G: Gate + Sync, R: Threads + Wait + Sync>(
    workers: &Workers<'_, G, R>,
    mirror: &mut Mirror<D>,
    target: usize,
    plan: &Plan,
    step: u32,
    copied: &mut Marks,
) -> Result<(), RebuildFault>
    requires within { target < length mirror.old.array.members }
    requires ready { IsReadyToCopy target mirror.old }
    requires held { AreHeld mirror.old target copied.old }
    requires left { AreLeft target plan.now.slots copied.old mirror.old }
    requires in_time { All (λ slot. slot.round < plan.now.rounds) plan.now.slots }
    requires step { 0 < step }
    ensures gives { MatchResult result
        (λ _. RecordsStretches target plan.now.slots copied.old copied.new mirror.old mirror.new)
        (FailsWithin target plan.now.slots copied.old copied.new mirror.old mirror.new) }
    ensures told { OnOk result (IsToldOfSlots G.Gate workers.now.gate.now plan.now.slots) }
    ensures sound { IsConsistent mirror.new }
{
    let mut from = 0;
    loop {
        let to = plan.rounds.min(step.saturating_add(from));
        copy_stretch(workers, mirror, target, plan, from, to, copied)?;
        if to >= plan.rounds {
            return Ok(());
        }
        from = to;
    }
}

// Copies the slots of the rounds from one on and before another, and records how far the target is rebuilt then. All
// slots before them were copied, or failed.
fn copy_stretch<D: Device + Drop + Send, G: Gate + Sync, R: Threads + Wait + Sync>(
    workers: &Workers<'_, G, R>,
    mirror: &mut Mirror<D>,
    target: usize,
    plan: &Plan,
    from: u32,
    to: u32,
    copied: &mut Marks,
) -> Result<(), RebuildFault>
    requires within { target < length mirror.old.array.members }
    requires ready { IsReadyToCopy target mirror.old }
    requires held { AreHeld mirror.old target copied.old }
    requires left { AreLeft target (slots_after from plan.now.slots) copied.old mirror.old }
    ensures gives { MatchResult result
        (λ _. RecordsStretch target (slots_before to (slots_after from plan.now.slots)) copied.old copied.new mirror.old mirror.new)
        (FailsStretch target (slots_before to (slots_after from plan.now.slots)) copied.old copied.new mirror.old mirror.new) }
    ensures ready { OnOk result (IsReadyToCopy target mirror.new) }
    ensures held { OnOk result (AreHeld mirror.new target copied.new) }
    ensures left { OnOk result (AreLeft target (slots_after to (slots_after from plan.now.slots)) copied.new mirror.new) }
    ensures told { OnOk result (IsToldOfSlots G.Gate workers.now.gate.now (slots_before to (slots_after from plan.now.slots))) }
    ensures sound { IsConsistent mirror.new }
{
    let stretch = stretch_of(workers.alloc, plan, from, to)?;
    let sources = sources_of(workers.alloc, mirror, target, &stretch)?;
    fill(
        workers,
        mirror,
        target,
        &stretch,
        sources.as_slice(),
        copied,
    )?;
    match mirror.checkpoint(target, copied) {
        Ok(()) => Ok(()),
        Err(TargetFault::TargetFault) => Err(RebuildFault::TargetFault),
        // The mirror runs.
        Err(TargetFault::Halted) => unreachable!(),
    }
}

// These slots as a plan.
fn stretch_of(alloc: Global, plan: &Plan, from: u32, to: u32) -> Result<Plan, AllocError>
    ensures { IfOk result (λ stretch. stretch.slots ≡ slots_before to (slots_after from plan.now.slots)) }
{
    let slots = slots_between(alloc, plan.slots.as_slice(), from, to)?;
    Ok(Plan {
        slots: Slots::from_vec(slots),
        rounds: to,
    })
}

fn slots_between(alloc: Global, slots: &[Slot], from: u32, to: u32) -> Result<Vec<Slot>, AllocError>
    ensures { IfOk result (λ v. v.items ≡ slots_before to (slots_after from slots.now)) }
{
    slots
        .iter()
        .filter(|slot| from <= slot.round)
        .filter(|slot| slot.round < to)
        .copied()
        .collect(alloc)
}
