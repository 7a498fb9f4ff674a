// A recovering member records how far it is rebuilt.
ghost use Rattle.std.specs.Prelude.{◌≡◌, ◌<◌, MatchResult, length, true};
ghost use Rattle.md_assembly.specs.States.{is_recovering};
ghost use Rattle.md_kept_members.specs.View.{MemberView};
ghost use Rattle.md_inflight.specs.Requests.Pending.{PendingView};
ghost use Rattle.md_state.specs.Members.{IsMember};
ghost use Rattle.md_state.specs.Requests.{IsPending};
ghost use Rattle.md_array.specs.Steps.Checkpoint.{CheckpointHappens, Checkpoints, MayCheckpoint, MovesOffsets, RefusesCheckpoint};
ghost use Rattle.md_array.specs.Consistency.{IsConsistent};

use crate::mirror::Mirror;
use md_bitmap::Marks;
use md_device::Device;
use md_faults::TargetFault;

impl<D: Device + Drop> Mirror<D> {
    /// Member k, which is recovering, records that it lacks nothing before the first chunk that it lacks
    /// and that was not copied, or of which it lists a sector: its superblock is written with that as the sure
    /// offset. The offset by which it lacks chunks never falls. Where the write fails the member stays as it
    /// was. It takes no memory.
    pub fn checkpoint(&mut self, k: usize, copied: &Marks) -> Result<(), TargetFault>
        requires within { k < length self.old.array.members }
        requires sound { IsConsistent self.old }
        requires may { MayCheckpoint k copied.now self.old }
        ensures gives { MatchResult result (λ _. Checkpoints k copied.now self.old self.new) (RefusesCheckpoint k copied.now self.old self.new) }
        ensures event { CheckpointHappens k self.old self.new result }
        ensures sound { IsConsistent self.new }
        ensures pending { (p : PendingView) → IsPending self.old.array p → IsPending self.new.array p }
    {
        let member = &self.array.members[k];
        let (offset, sure) = (member.offset, member.superblock.recovery_offset);
        let end = self.array.checkpoint_end(k, copied);
        self.set_offsets(k, offset.max(end), end);
        if let Err(fault) = self.record_target(k) {
            self.set_offsets(k, offset, sure);
            return Err(fault);
        }
        Ok(())
    }

    // In memory alone the member has these offsets from now on.
    fn set_offsets(&mut self, k: usize, offset: u64, sure: u64)
        requires within { k < length self.old.array.members }
        requires recovering { (m : MemberView) → IsMember self.old.array k m → is_recovering m.state ≡ true }
        requires sound { IsConsistent self.old }
        ensures moves { MovesOffsets k offset sure self.old self.new }
        ensures sound { IsConsistent self.new }
        ensures pending { (p : PendingView) → IsPending self.old.array p → IsPending self.new.array p }
    {
        self.array.set_offsets(k, offset, sure);
    }
}
