// Removing a member.
ghost use Rattle.std.specs.Prelude.{◌≡◌, ◌<◌, List, MatchResult, length, true};
ghost use Rattle.md_kept_members.specs.View.{MemberView};
ghost use Rattle.md_assembly.specs.States.{is_spare};
ghost use Rattle.md_state.specs.Members.{IsMember};
ghost use Rattle.md_state.specs.Steps.Remove.{Leaves, MayLeave, RefusesRemove, before_leaving, without_spare};
ghost use Rattle.md_state.specs.View.{Disk};
ghost use Rattle.md_state.specs.Steps.Rise.{HasSpentEvents};

use crate::array::Array;
use md_faults::RemoveFault;
use md_kept_members::drop_role;

impl Array {
    /// What `Mirror::remove` does in memory, whatever its devices are.
    pub fn remove_member(&mut self, k: usize) -> Result<(), RemoveFault>
        requires { k < length self.old.members }
        ensures { (disks : List Disk) → MatchResult result (λ _. Leaves k self.old self.new)
            (RefusesRemove k (record { disks = disks; array = self.old }) (record { disks = disks; array = self.new })) }
    {
        self.check_remove(k)?;
        self.note_leaving(k);
        self.members.remove(k);
        Ok(())
    }

    // Whether member k may be removed.
    fn check_remove(&self, k: usize) -> Result<(), RemoveFault>
        requires { k < length self.now.members }
        ensures { (disks : List Disk) → MatchResult result (λ _. (m : MemberView) → IsMember self.now k m → MayLeave k self.now m)
            (RefusesRemove k (record { disks = disks; array = self.now }) (record { disks = disks; array = self.now })) }
    {
        if self.halted {
            return Err(RemoveFault::Halted);
        }
        let state = self.members[k].state;
        if state.is_active() {
            return Err(RemoveFault::StillActive);
        }
        if state.is_spare() && self.shared.events == u64::MAX {
            return Err(RemoveFault::EventsFull);
        }
        Ok(())
    }

    // Where member k is a spare, the count rises, and its entry is that of a failed device.
    fn note_leaving(&mut self, k: usize)
        requires within { k < length self.old.members }
        requires unspent { (m : MemberView) → IsMember self.old k m → is_spare m.state ≡ true → HasSpentEvents self.old → ⊥ }
        ensures { (m : MemberView) → IsMember self.old k m → self.new ≡ before_leaving self.old m }
    {
        if self.members[k].state.is_spare() {
            self.drop_spare_entry(k);
        }
    }

    // The count rises, and the entry of spare k is that of a failed device.
    fn drop_spare_entry(&mut self, k: usize)
        requires within { k < length self.old.members }
        requires unspent { HasSpentEvents self.old → ⊥ }
        ensures { (m : MemberView) → IsMember self.old k m → self.new ≡ without_spare self.old m }
    {
        self.rise();
        let number = self.members[k].superblock.dev_number;
        drop_role(&mut self.shared, number);
    }
}
