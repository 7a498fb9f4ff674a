// Stopping an array.
ghost use Rattle.std.specs.Prelude.{◌≡◌, MatchResult, true, false};
ghost use Rattle.md_inflight.specs.Requests.Pending.{PendingView};
ghost use Rattle.md_state.specs.Steps.MakeClean.{IsIdle};
ghost use Rattle.md_state.specs.Requests.{IsPending};
ghost use Rattle.md_state.specs.Steps.Rise.{HasSpentEvents};
ghost use Rattle.md_array.specs.Consistency.{IsConsistent};
ghost use Rattle.md_metadata.specs.Stopping.{CleansIfActive, ClearsIfFull, HasAllMarksIf, IsStoringIf, MayStopArray, RefusesStop, StopsMirror, clears_marks, makes_clean};
ghost use Rattle.md_metadata.specs.Storing.{StoresAll, StoringFails};

use crate::all_marks::store_all_marks;
use crate::fault::PartFault;
use crate::idle_marks::clear_marks;
use crate::records::{store_other_records, store_records};
use crate::stop_fault::StopFault;
use md_array::Mirror;
use md_device::Device;
use md_super::CLEAN_OFFSET;

/// Leaves the array as an assembly expects to find it. Where it is resynced and not degraded, no chunk is marked
/// any more; where it is resynced, it is clean; and every superblock that is due is stored. Of a bitmap the
/// sectors are stored that had other bits. The fault is the first in the order of `StopFault`; a member that
/// fails on the way ends the call. Takes no memory.
pub fn stop<D: Device + Drop>(mirror: &mut Mirror<D>) -> Result<(), StopFault>
    requires sound { IsConsistent mirror.old }
    ensures gives { MatchResult result (λ _. StopsMirror mirror.old mirror.new) (RefusesStop mirror.old mirror.new) }
    ensures sound { IsConsistent mirror.new }
    ensures pending { (p : PendingView) → IsPending mirror.old.array p → IsPending mirror.new.array p }
{
    check_stop(mirror)?;
    let clears = clears_marks(mirror);
    clear_if_full(mirror);
    clean_if_active(mirror);
    store_marks_if(mirror, clears)?;
    store_records(mirror)?;
    store_other_records(mirror)?;
    Ok(())
}

// Whether the array may be stopped.
fn check_stop<D: Device + Drop>(mirror: &Mirror<D>) -> Result<(), StopFault>
    ensures { MatchResult result (λ _. MayStopArray mirror.now.array) (RefusesStop mirror.now mirror.now) }
{
    if mirror.halted() {
        return Err(StopFault::Halted);
    }
    if let Some(number) = mirror.in_flight() {
        return Err(StopFault::InFlight(number));
    }
    if makes_clean(mirror) && mirror.events() == u64::MAX {
        return Err(StopFault::EventsFull);
    }
    Ok(())
}

// Whether the marks go: the array is resynced and not degraded.
fn clears_marks<D: Device + Drop>(mirror: &Mirror<D>) -> bool
    ensures { result ≡ clears_marks mirror.now.array }
{
    mirror.resynced() && !mirror.degraded()
}

// Whether the array becomes clean: it is resynced, and active.
fn makes_clean<D: Device + Drop>(mirror: &Mirror<D>) -> bool
    ensures { result ≡ makes_clean mirror.now.array }
{
    mirror.resynced() && mirror.shared().resync_offset != CLEAN_OFFSET
}

fn clear_if_full<D: Device + Drop>(mirror: &mut Mirror<D>)
    requires sound { IsConsistent mirror.old }
    requires idle { IsIdle mirror.old.array }
    ensures { ClearsIfFull mirror.old mirror.new }
{
    if clears_marks(mirror) {
        clear_marks(mirror);
    }
}

fn clean_if_active<D: Device + Drop>(mirror: &mut Mirror<D>)
    requires sound { IsConsistent mirror.old }
    requires idle { IsIdle mirror.old.array }
    requires unspent { makes_clean mirror.old.array ≡ true → HasSpentEvents mirror.old.array → ⊥ }
    ensures { CleansIfActive mirror.old mirror.new }
{
    if makes_clean(mirror) {
        // It can't be refused: the mirror runs, nothing is in flight, the array is resynced, and the count may rise.
        let _made = mirror.make_clean();
    }
}

fn store_marks_if<D: Device + Drop>(mirror: &mut Mirror<D>, clears: bool) -> Result<(), PartFault>
    requires sound { IsConsistent mirror.old }
    requires running { mirror.old.array.halted ≡ false }
    ensures { MatchResult result (λ _. StoresAll (IsStoringIf clears) (HasAllMarksIf clears mirror.old.array.marks) mirror.old mirror.new) (StoringFails (IsStoringIf clears) mirror.old mirror.new) }
{
    if !clears {
        return Ok(());
    }
    store_all_marks(mirror)
}
