// The marks are stored as they are in memory, before sectors are copied and after marks are cleared.
ghost use Rattle.std.specs.Prelude.{◌≡◌, MatchResult, true};
ghost use Rattle.md_state.specs.Steps.MakeClean.{IsIdle};
ghost use Rattle.md_state.specs.Members.{AllInSync};
ghost use Rattle.md_array.specs.Consistency.{IsConsistent};
ghost use Rattle.md_metadata.specs.Storing.{HasAllMarks};
ghost use Rattle.md_resync.specs.Resyncing.{ClearsStored, MarkingFails, StoresAllMarks};

use crate::fault::ResyncFault;
use md_array::Mirror;
use md_device::Device;
use md_metadata::{PartFault, clear_marks, store_all_marks};

/// Stores the marks of memory on each member in sync, where other bits are stored. Takes no memory.
pub(crate) fn store_memory_marks<D: Device + Drop>(
    mirror: &mut Mirror<D>,
) -> Result<(), ResyncFault>
    requires sound { IsConsistent mirror.old }
    requires idle { IsIdle mirror.old.array }
    ensures gives { MatchResult result (λ _. StoresAllMarks mirror.old mirror.new) (MarkingFails mirror.old mirror.new) }
    ensures sound { IsConsistent mirror.new }
{
    match store_all_marks(mirror) {
        Ok(()) => Ok(()),
        Err(PartFault::Halted) => Err(ResyncFault::Halted),
        Err(PartFault::MemberFailed(k)) => Err(ResyncFault::MemberFailed(k)),
    }
}

/// Clears all marks, and stores that. Where the array is degraded they stay. Takes no memory.
pub(crate) fn clear_stored<D: Device + Drop>(mirror: &mut Mirror<D>) -> Result<(), ResyncFault>
    requires sound { IsConsistent mirror.old }
    requires idle { IsIdle mirror.old.array }
    requires resynced { mirror.old.array.resynced ≡ true }
    requires stored { AllInSync mirror.old.array (HasAllMarks mirror.old.array.marks) }
    ensures gives { MatchResult result (λ _. ClearsStored mirror.old mirror.new) (MarkingFails mirror.old mirror.new) }
    ensures sound { IsConsistent mirror.new }
{
    if mirror.degraded() {
        return Ok(());
    }
    clear_marks(mirror);
    store_memory_marks(mirror)
}
