// Storing a member's superblock.
ghost use Rattle.std.specs.Prelude.{◌<◌, MatchResult, length};
ghost use Rattle.md_inflight.specs.Requests.Pending.{PendingView};
ghost use Rattle.md_state.specs.Requests.{IsPending};
ghost use Rattle.md_array.specs.Consistency.{IsConsistent};
ghost use Rattle.md_array.specs.Events.{RecordHappens};
ghost use Rattle.md_array.specs.Steps.Record.{Records, RefusesRecord};

use crate::mirror::Mirror;
use md_device::Device;
use md_faults::StoreFault;
use md_kept_members::store_superblock;

impl<D: Device + Drop> Mirror<D> {
    /// Writes member k's superblock: the array's fields, and its own. It takes no memory. The fault is
    /// the first in the order of `StoreFault`.
    ///
    /// Of a member in sync sector 0 of its bitmap is to be stored right before: a bitmap whose header is
    /// older than the superblock is refused at the next opening, and then every chunk counts as marked.
    pub fn record(&mut self, k: usize) -> Result<(), StoreFault>
        requires within { k < length self.old.array.members }
        requires sound { IsConsistent self.old }
        ensures gives { MatchResult result (λ _. Records k self.old self.new) (RefusesRecord k self.old self.new) }
        ensures event { RecordHappens k self.old self.new result }
        ensures sound { IsConsistent self.new }
        ensures pending { (p : PendingView) → IsPending self.old.array p → IsPending self.new.array p }
    {
        self.array.check_active(k)?;
        let array = &self.array;
        let member = &array.members[k];
        if store_superblock(&mut self.devices[k], &array.shared, member).is_err() {
            return Err(self.array.store_failed(k));
        }
        self.array.note_recorded(k);
        Ok(())
    }
}
