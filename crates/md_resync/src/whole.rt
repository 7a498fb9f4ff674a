// A whole resync.
ghost use Rattle.std.specs.Prelude.{◌≡◌, ◌≤◌, MatchResult, length};
ghost use Rattle.md_inflight.specs.Requests.Pending.{PendingView};
ghost use Rattle.md_state.specs.Steps.MakeClean.{IsIdle};
ghost use Rattle.md_state.specs.Requests.{IsPending};
ghost use Rattle.md_array.specs.Consistency.{IsConsistent};
ghost use Rattle.md_resync.specs.Resyncing.{IdleFails, RefusesResync, Resyncs, ResyncsTold, ToldFails};
ghost use Rattle.md_resync.specs.Telling.{AllSayNoneMarked};

use crate::buffer::buffer;
use crate::fault::ResyncFault;
use crate::giving_up::give_up;
use crate::making_agree::make_agree;
use crate::marks::{clear_stored, store_memory_marks};
use crate::told_first::tell_recovering;
use md_array::Mirror;
use md_device::Device;
use std::alloc::Global;

/// Makes the members in sync agree, so that the array can be read and written. Where a recovering member's superblock says that it
/// has a marked chunk, that is taken back first, and what is due is stored. Then the marks of memory are stored on
/// each member in sync, also where the array is degraded; then marked chunks are copied, through two buffers of 1 MiB,
/// where members are not known to agree; and where the array is not degraded, the marks are cleared and that is stored.
///
/// `Halted`, `InFlight` and `NoMemory` are looked for in this order, before a device is used. Then the first failure
/// ends the call, and the next one begins anew. Where no member fails, no superblock becomes due.
pub fn resync<D: Device + Drop>(alloc: Global, mirror: &mut Mirror<D>) -> Result<(), ResyncFault>
    requires sound { IsConsistent mirror.old }
    ensures gives { MatchResult result (λ _. Resyncs mirror.old mirror.new) (RefusesResync mirror.old mirror.new) }
    ensures sound { IsConsistent mirror.new }
    ensures pending { (p : PendingView) → IsPending mirror.old.array p → IsPending mirror.new.array p }
{
    if mirror.halted() {
        return Err(ResyncFault::Halted);
    }
    if let Some(number) = mirror.in_flight() {
        return Err(ResyncFault::InFlight(number));
    }
    match resync_idle(alloc, mirror) {
        Ok(()) => Ok(()),
        Err(fault) => {
            give_up(mirror);
            Err(fault)
        }
    }
}

// Resynchronises while nothing is in flight, but for what is kept where it does not come to its end.
fn resync_idle<D: Device + Drop>(alloc: Global, mirror: &mut Mirror<D>) -> Result<(), ResyncFault>
    requires sound { IsConsistent mirror.old }
    requires idle { IsIdle mirror.old.array }
    ensures gives { MatchResult result (λ _. Resyncs mirror.old mirror.new) (IdleFails mirror.old mirror.new) }
    ensures sound { IsConsistent mirror.new }
{
    let (Ok(mut bytes), Ok(mut held)) = (buffer(alloc), buffer(alloc)) else {
        return Err(ResyncFault::NoMemory);
    };
    tell_recovering(mirror)?;
    resync_told(mirror, &mut bytes, &mut held)
}

// Resynchronises once recovering members are told of, through buffers of one length.
fn resync_told<D: Device + Drop>(
    mirror: &mut Mirror<D>,
    buffer: &mut [u8],
    held: &mut [u8],
) -> Result<(), ResyncFault>
    requires room { 512 ≤ length buffer.old }
    requires as_much { length held.old ≡ length buffer.old }
    requires sound { IsConsistent mirror.old }
    requires idle { IsIdle mirror.old.array }
    requires told { AllSayNoneMarked mirror.old.array }
    ensures gives { MatchResult result (λ _. ResyncsTold mirror.old mirror.new) (ToldFails mirror.old mirror.new) }
    ensures sound { IsConsistent mirror.new }
{
    store_memory_marks(mirror)?;
    make_agree(mirror, buffer, held)?;
    mirror.note_resynced();
    clear_stored(mirror)
}
