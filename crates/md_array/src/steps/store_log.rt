// The list of a member in sync is stored in its log.
ghost use Rattle.std.specs.Prelude.{◌≡◌, ◌<◌, MatchResult, length, true};
ghost use Rattle.md_assembly.specs.States.{is_in_sync};
ghost use Rattle.md_kept_members.specs.Enrolling.{HasRoomFor};
ghost use Rattle.md_kept_members.specs.View.{MemberView};
ghost use Rattle.md_inflight.specs.Requests.Pending.{PendingView};
ghost use Rattle.md_state.specs.Members.{IsMember};
ghost use Rattle.md_state.specs.Requests.{IsPending};
ghost use Rattle.md_array.specs.Consistency.{IsConsistent};
ghost use Rattle.md_array.specs.Steps.StoreLog.{RefusesStoreLog, StoreLogHappens, StoresLog};

use crate::mirror::Mirror;
use md_device::Device;
use md_faults::StoreFault;
use md_kept_members::store_log;

impl<D: Device + Drop> Mirror<D> {
    /// Stores the list of member k, which is in sync, in its log, where its superblock names one. Its
    /// superblock is due from then on, and tells of the list once `record` has stored it: until then an
    /// opening may read none. It takes no memory. The fault is the first in the order of `StoreFault`.
    pub fn store_log(&mut self, k: usize) -> Result<(), StoreFault>
        requires within { k < length self.old.array.members }
        requires in_sync { (m : MemberView) → IsMember self.old.array k m → is_in_sync m.state ≡ true }
        requires room { (m : MemberView) → IsMember self.old.array k m → HasRoomFor m.superblock m.bad }
        requires sound { IsConsistent self.old }
        ensures gives { MatchResult result (λ _. StoresLog k self.old self.new) (RefusesStoreLog k self.old self.new) }
        ensures event { StoreLogHappens k self.old self.new result }
        ensures sound { IsConsistent self.new }
        ensures pending { (p : PendingView) → IsPending self.old.array p → IsPending self.new.array p }
    {
        if self.array.halted {
            return Err(StoreFault::Halted);
        }
        let array = &self.array;
        let member = &array.members[k];
        if store_log(&mut self.devices[k], member).is_err() {
            return Err(self.array.store_failed(k));
        }
        self.array.note_log_stored(k);
        Ok(())
    }
}
