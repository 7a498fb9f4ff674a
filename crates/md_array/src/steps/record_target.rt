// Storing the superblock of a member that is rebuilt.
ghost use Rattle.std.specs.Prelude.{◌≡◌, ◌<◌, MatchResult, length, true};
ghost use Rattle.md_kept_members.specs.View.{MemberView};
ghost use Rattle.md_inflight.specs.Requests.Pending.{PendingView};
ghost use Rattle.md_state.specs.Members.{IsMember};
ghost use Rattle.md_state.specs.Missing.{is_rebuilt};
ghost use Rattle.md_state.specs.Requests.{IsPending};
ghost use Rattle.md_array.specs.Consistency.{IsConsistent};
ghost use Rattle.md_array.specs.Steps.Record.{Records};
ghost use Rattle.md_array.specs.Steps.RecordTarget.{RefusesTarget, TargetHappens};

use crate::mirror::Mirror;
use md_device::Device;
use md_faults::TargetFault;
use md_kept_members::store_superblock;

impl<D: Device + Drop> Mirror<D> {
    /// Writes the superblock of member k, a spare or recovering, as `record` does. Where the write fails
    /// the member is not made faulty: it stays as it was, and its record is due. It takes no memory.
    pub fn record_target(&mut self, k: usize) -> Result<(), TargetFault>
        requires within { k < length self.old.array.members }
        requires rebuilt { (m : MemberView) → IsMember self.old.array k m → is_rebuilt m.state ≡ true }
        requires sound { IsConsistent self.old }
        ensures gives { MatchResult result (λ _. Records k self.old self.new) (RefusesTarget k self.old self.new) }
        ensures event { TargetHappens k self.old self.new result }
        ensures sound { IsConsistent self.new }
        ensures pending { (p : PendingView) → IsPending self.old.array p → IsPending self.new.array p }
    {
        if self.array.halted {
            return Err(TargetFault::Halted);
        }
        let array = &self.array;
        let member = &array.members[k];
        if store_superblock(&mut self.devices[k], &array.shared, member).is_err() {
            return Err(TargetFault::TargetFault);
        }
        self.array.note_recorded(k);
        Ok(())
    }
}
