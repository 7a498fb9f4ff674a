// Whether a member's superblock may be stored, and what is kept once it is.
ghost use Rattle.std.specs.Prelude.{◌<◌, ◌≡◌, MatchResult, length};
ghost use Rattle.md_kept_members.specs.Members.{recorded_member};
ghost use Rattle.md_kept_members.specs.View.{MemberView};
ghost use Rattle.md_state.specs.Steps.Record.{IsActive, RefusesInactive};
ghost use Rattle.md_state.specs.Members.{IsMember};
ghost use Rattle.md_state.specs.Steps.Checkpoint.{with_member_at};

use crate::array::Array;
use md_faults::StoreFault;
use md_kept_members::note_recorded;

impl Array {
    /// Whether the mirror runs and the superblock of member k is kept up to date.
    pub fn check_active(&self, k: usize) -> Result<(), StoreFault>
        requires { k < length self.now.members }
        ensures { MatchResult result (λ _. IsActive k self.now) (RefusesInactive k self.now) }
    {
        if self.halted {
            return Err(StoreFault::Halted);
        }
        if self.members[k].state.is_recorded() {
            Ok(())
        } else {
            Err(StoreFault::NotActive)
        }
    }
}

// What is kept of a superblock that was stored.
impl Array {
    /// Member k's superblock is stored as it is kept.
    pub fn note_recorded(&mut self, k: usize)
        requires { k < length self.old.members }
        ensures { (m : MemberView) → IsMember self.old k m → self.new ≡ with_member_at self.old k (recorded_member m) }
    {
        note_recorded(&mut self.members[k]);
    }
}
