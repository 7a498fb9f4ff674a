// The members of a mirror are compared.
ghost use Rattle.std.specs.Prelude.{MatchResult, OnOk};
ghost use Rattle.md_state.specs.Steps.MakeClean.{IsIdle};
ghost use Rattle.md_state.specs.Members.{IsAlone};
ghost use Rattle.md_array.specs.Consistency.{IsConsistent};
ghost use Rattle.md_check.specs.Checking.{Checks, ComparesMembers, FindsOfPairs, IsToldOfMembers, RefusesCheck};
ghost use Rattle.md_check.specs.Differences.{IsEmpty};
ghost use Rattle.md_collect.specs.Found.{IsSized};

use crate::fault::CheckFault;
use crate::lent::{WINDOW, check_lent};
use crate::order::orders_for;
use crate::pairs::pairs_in_sync;
use crate::readers::{leave_readers, readers_of};
use md_array::Mirror;
use md_bitmap::Marks;
use md_collect::Comparison;
use md_device::Device;
use md_streams::Gate;
use std::alloc::Global;
use std::thread::Threads;

/// Finds the chunks in which two members in sync differ in a sector that neither lists as bad, and of each two
/// members in sync the chunks in which these two do. Listed sectors are not read, nor is any device where fewer
/// than two members are in sync.
///
/// Each member in sync is read by a worker of its own, in windows of 2 MiB and each chunk by itself; the
/// gate is called round each read, `source` being the member's role. From the second window on the first
/// member in sync is read a window ahead, and what is read of the others is compared with it at once. A window
/// in which not all is the same is read of that member again. All memory is taken before a device is used.
/// Nothing is written. The first turn in which a read fails ends the check: the error names the first
/// member that could not be read in it, and the chunk.
pub fn compare_members<D: Device + Drop + Send, G: Gate + Sync, R: Threads + Sync>(
    rt: &R,
    alloc: Global,
    mirror: &mut Mirror<D>,
    gate: &G,
) -> Result<Comparison, CheckFault>
    requires sound { IsConsistent mirror.old }
    ensures gives { MatchResult result
        (ComparesMembers mirror.old mirror.new) (RefusesCheck mirror.old mirror.new) }
    ensures sound { IsConsistent mirror.new }
    ensures told { OnOk result (IsToldOfMembers G.Gate gate.now mirror.old.array) }
{
    check_idle(mirror)?;
    let chunks = Marks::none(alloc, mirror.chunks().count())?;
    let pairs = pairs_in_sync(alloc, mirror)?;
    let mut found = Comparison { chunks, pairs };
    compare(rt, alloc, mirror, gate, &mut found)?;
    Ok(found)
}

/// Counts these chunks. No pair is looked at.
pub fn check_array<D: Device + Drop + Send, G: Gate + Sync, R: Threads + Sync>(
    rt: &R,
    alloc: Global,
    mirror: &mut Mirror<D>,
    gate: &G,
) -> Result<u32, CheckFault>
    requires sound { IsConsistent mirror.old }
    ensures gives { MatchResult result (Checks mirror.old mirror.new) (RefusesCheck mirror.old mirror.new) }
    ensures sound { IsConsistent mirror.new }
    ensures told { OnOk result (IsToldOfMembers G.Gate gate.now mirror.old.array) }
{
    check_idle(mirror)?;
    let chunks = Marks::none(alloc, mirror.chunks().count())?;
    let pairs = Vec::new(alloc);
    let mut found = Comparison { chunks, pairs };
    compare(rt, alloc, mirror, gate, &mut found)?;
    Ok(found.chunks.count())
}

// Refuses a mirror that is halted, or has a request in flight.
fn check_idle<D: Device + Drop>(mirror: &Mirror<D>) -> Result<(), CheckFault>
    ensures { MatchResult result (λ _. IsIdle mirror.now.array) (RefusesCheck mirror.now mirror.now) }
{
    if mirror.halted() {
        return Err(CheckFault::Halted);
    }
    if let Some(number) = mirror.in_flight() {
        return Err(CheckFault::InFlight(number));
    }
    Ok(())
}

// Finds the chunks in which members in sync differ, and those of each pair.
fn compare<D: Device + Drop + Send, G: Gate + Sync, R: Threads + Sync>(
    rt: &R,
    alloc: Global,
    mirror: &mut Mirror<D>,
    gate: &G,
    found: &mut Comparison,
) -> Result<(), CheckFault>
    requires sound { IsConsistent mirror.old }
    requires idle { IsIdle mirror.old.array }
    requires sized { IsSized mirror.old.array.chunks found.old }
    requires none { IsEmpty found.old }
    ensures gives { MatchResult result (λ _. FindsOfPairs found.old found.new mirror.old mirror.new)
        (RefusesCheck mirror.old mirror.new) }
    ensures sound { IsConsistent mirror.new }
    ensures told { OnOk result (IsToldOfMembers G.Gate gate.now mirror.old.array) }
{
    if mirror.has_two_in_sync() {
        lend_and_compare(rt, alloc, mirror, gate, found)?;
    }
    Ok(())
}

// Compares them where two members are in sync. The devices are lent, and each comes back to its place.
fn lend_and_compare<D: Device + Drop + Send, G: Gate + Sync, R: Threads + Sync>(
    rt: &R,
    alloc: Global,
    mirror: &mut Mirror<D>,
    gate: &G,
    found: &mut Comparison,
) -> Result<(), CheckFault>
    requires sound { IsConsistent mirror.old }
    requires idle { IsIdle mirror.old.array }
    requires two { IsAlone mirror.old.array → ⊥ }
    requires sized { IsSized mirror.old.array.chunks found.old }
    requires none { IsEmpty found.old }
    ensures gives { MatchResult result (λ _. FindsOfPairs found.old found.new mirror.old mirror.new)
        (RefusesCheck mirror.old mirror.new) }
    ensures sound { IsConsistent mirror.new }
    ensures told { OnOk result (IsToldOfMembers G.Gate gate.now mirror.old.array) }
{
    let chunks = mirror.chunks();
    let room = 512 * WINDOW.min(chunks.size) as usize;
    let mut orders = orders_for(alloc, mirror, room)?;
    let mut readers = Vec::with_capacity(alloc, orders.len())?;
    let mut lead = vec![in alloc; 0u8; room]?;
    let devices = mirror.lend();
    readers_of(devices, &mut orders, &mut readers);
    let answer = check_lent(rt, gate, chunks, &mut lead, &mut readers, found);
    leave_readers(&mut readers, devices);
    match answer {
        Ok(()) => Ok(()),
        Err(missed) => Err(CheckFault::ReadFault(missed.member, missed.chunk)),
    }
}
