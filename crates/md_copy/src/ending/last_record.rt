// How far the target is rebuilt is recorded before a fault is answered.
ghost use Rattle.std.specs.Prelude.{◌≡◌, ◌<◌, ℕ, false, length};
ghost use Rattle.md_array.specs.Steps.Checkpoint.{MayCheckpoint};
ghost use Rattle.md_array.specs.Consistency.{IsConsistent};
ghost use Rattle.md_bitmap.specs.Marks.{is_set};
ghost use Rattle.md_copy.specs.Ending.Leaving.{RecordsAtEnd, LeavesSo};
ghost use Rattle.md_copy.specs.Salvaging.Leaving.{MayLeaveSalvaged};

use crate::beginning::RebuildFault;
use md_array::Mirror;
use md_bitmap::Marks;
use md_device::Device;

/// Records how far the target, which is recovering, is rebuilt, before the fault is answered: there was no memory,
/// or no room in a log, or a list could not be stored on a member. A copied chunk may have come from several members.
/// If this record fails too, nobody is told. Takes no memory.
pub(crate) fn leave<D: Device + Drop>(
    mirror: &mut Mirror<D>,
    target: usize,
    copied: &mut Marks,
    fault: RebuildFault,
)
    requires within { target < length mirror.old.array.members }
    requires sound { IsConsistent mirror.old }
    requires may { MayLeaveSalvaged target copied.old mirror.old fault }
    ensures leaves { LeavesSo target copied.old mirror.old mirror.new fault }
    ensures sound { IsConsistent mirror.new }
{
    match fault {
        RebuildFault::NoMemory | RebuildFault::LogFull(_) => record(mirror, target, copied),
        RebuildFault::MetadataFault(_) => {
            // Some sectors may have been copied from the member that failed.
            forget(copied);
            record(mirror, target, copied);
        }
        RebuildFault::Halted
        | RebuildFault::NotSpare
        | RebuildFault::Dirty
        | RebuildFault::InFlight(_)
        | RebuildFault::EventsFull
        | RebuildFault::TargetFault => {}
    }
}

// No chunk counts as copied any more.
fn forget(copied: &mut Marks)
    ensures chunks { copied.new.chunks ≡ copied.old.chunks }
    ensures none { (c : ℕ) → c < copied.old.chunks → is_set copied.new.bytes c ≡ false }
{
    for chunk in 0..copied.chunks() {
        copied.unmark(chunk);
    }
}

// Records it, if the mirror runs.
fn record<D: Device + Drop>(mirror: &mut Mirror<D>, target: usize, copied: &Marks)
    requires within { target < length mirror.old.array.members }
    requires sound { IsConsistent mirror.old }
    requires may { mirror.old.array.halted ≡ false → MayCheckpoint target copied.now mirror.old }
    ensures leaves { RecordsAtEnd target copied.now mirror.old mirror.new }
    ensures sound { IsConsistent mirror.new }
{
    if mirror.halted() {
        return;
    }
    match mirror.checkpoint(target, copied) {
        Ok(()) => {}
        // The first fault is told.
        Err(_) => {}
    }
}
