// A member fails: by a call, or since a write to it failed.
ghost use Rattle.std.specs.Prelude.{◌≡◌, ◌<◌, MatchBool, cond, length, List, MatchResult};
ghost use Rattle.md_kept_members.specs.View.{MemberView};
ghost use Rattle.md_state.specs.Steps.CopyData.{AnswersCopy};
ghost use Rattle.md_state.specs.Steps.Fail.{AnswersStore, AnswersWrite, MayFail, FailsMember, MayBeFailed, RefusesFail};
ghost use Rattle.md_state.specs.Members.{IsMember, is_degraded};
ghost use Rattle.md_state.specs.Steps.Rise.{CannotFail, Fails, Halts, HasSpentEvents, failed, without};
ghost use Rattle.md_state.specs.View.{Disk};

use crate::array::Array;
use md_assembly::MemberState;
use md_faults::{CopyFault, FailFault, StoreFault, WriteMemberFault};
use md_kept_members::{drop_role, has_other_in_sync};

impl Array {
    /// The answer where storing something on member k failed: the member is faulty from now on, or the
    /// mirror is halted.
    pub fn store_failed(&mut self, k: usize) -> StoreFault
        requires { k < length self.old.members }
        ensures { AnswersStore k self.old self.new result }
    {
        if self.member_failed(k) {
            StoreFault::MemberFailed(k)
        } else {
            StoreFault::Halted
        }
    }

    /// The answer where writing a request's bytes to member k failed, as `store_failed`.
    pub fn write_failed(&mut self, k: usize) -> WriteMemberFault
        requires { k < length self.old.members }
        ensures { AnswersWrite k self.old self.new result }
    {
        if self.member_failed(k) {
            WriteMemberFault::MemberFailed(k)
        } else {
            WriteMemberFault::Halted
        }
    }

    /// The answer where copying sectors to member k failed, as `store_failed`.
    pub fn copy_failed(&mut self, k: usize) -> CopyFault
        requires { k < length self.old.members }
        ensures { AnswersCopy k self.old self.new result }
    {
        if self.member_failed(k) {
            CopyFault::MemberFailed(k)
        } else {
            CopyFault::Halted
        }
    }

    // A write to member k failed. Whether the member is faulty now: else the mirror is halted, since no
    // other member is in sync or the count can't rise.
    fn member_failed(&mut self, k: usize) -> bool
        requires { k < length self.old.members }
        ensures { MatchBool result (Fails k self.old self.new) (Halts k self.old self.new) }
    {
        if self.can_fail(k) {
            self.fail(k);
            true
        } else {
            self.halted = true;
            false
        }
    }

    fn can_fail(&self, k: usize) -> bool
        ensures { MatchBool result (MayFail self.now k) (CannotFail self.now k) }
    {
        self.shared.events != u64::MAX && has_other_in_sync(&self.members, k)
    }

    /// The count rises, and member k is faulty.
    pub(crate) fn fail(&mut self, k: usize)
        requires within { k < length self.old.members }
        requires unspent { HasSpentEvents self.old → ⊥ }
        ensures { (m : MemberView) → IsMember self.old k m → self.new ≡ failed self.old k m }
    {
        self.raise_count(false);
        self.make_faulty(k);
        self.note_full();
    }

    fn make_faulty(&mut self, k: usize)
        requires { k < length self.old.members }
        ensures { (m : MemberView) → IsMember self.old k m → self.new ≡ without self.old k m }
    {
        let member = &mut self.members[k];
        member.state = MemberState::Faulty;
        member.due = false;
        drop_role(&mut self.shared, member.superblock.dev_number);
    }

    // Where the array is full, marks that are cleared from now on are cleared at its count.
    fn note_full(&mut self)
        ensures { self.new ≡ record self.old { events_cleared = cond (is_degraded self.old) self.old.events_cleared self.old.shared.events } }
    {
        if !self.is_degraded() {
            self.events_cleared = self.shared.events;
        }
    }
}

// Failing a member by a call.
impl Array {
    /// What `Mirror::fail` does, whatever its devices are: it uses none.
    pub fn fail_member(&mut self, k: usize) -> Result<(), FailFault>
        requires { k < length self.old.members }
        ensures { (disks : List Disk) → MatchResult result (λ _. FailsMember k (record { disks = disks; array = self.old }) (record { disks = disks; array = self.new }))
            (RefusesFail k (record { disks = disks; array = self.old }) (record { disks = disks; array = self.new })) }
    {
        self.check_fail(k)?;
        self.fail(k);
        Ok(())
    }

    // Whether member k may be failed.
    fn check_fail(&self, k: usize) -> Result<(), FailFault>
        requires { k < length self.now.members }
        ensures { (disks : List Disk) → MatchResult result (λ _. MayBeFailed k self.now)
            (RefusesFail k (record { disks = disks; array = self.now }) (record { disks = disks; array = self.now })) }
    {
        if self.halted {
            return Err(FailFault::Halted);
        }
        if !self.members[k].state.is_active() {
            return Err(FailFault::NotActive);
        }
        if !has_other_in_sync(&self.members, k) {
            return Err(FailFault::LastMember);
        }
        if self.shared.events == u64::MAX {
            return Err(FailFault::EventsFull);
        }
        Ok(())
    }
}
