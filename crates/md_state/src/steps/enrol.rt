// A member that was rebuilt comes into sync.
ghost use Rattle.std.specs.Prelude.{◌≡◌, ◌<◌, ◌==◌, ◌||◌, ℕ, MatchResult, cond, false, length, map, not, set, true};
ghost use Rattle.std.specs.List.{list_any, range_with_len};
ghost use Rattle.std.specs.Int.{div_ceil};
ghost use Rattle.md_assembly.specs.States.{is_in_sync, is_recovering};
ghost use Rattle.md_assembly.specs.declared.state.MemberState.TheVariants as state;
ghost use Rattle.md_kept_members.specs.Members.{made_due};
ghost use Rattle.md_kept_members.specs.SectorLists.{in_chunks, in_chunks_but, in_runs};
ghost use Rattle.md_kept_members.specs.View.{MemberView};
ghost use Rattle.md_state.specs.Steps.Enrol.{ComesWith, MayTakeRole, RefusesEnrolledMember, RefusesMadeMember, RefusesRole, is_full_with};
ghost use Rattle.md_state.specs.Members.{IsMember, is_filled};

use crate::array::Array;
use md_assembly::MemberState;
use md_badblocks::BadSet;
use md_bitmap::Marks;
use md_faults::EnrolFault;
use md_kept_members::{
    Member, entries_after, in_sync, list_after, list_but_for, log_room, make_due,
};
use md_super::Superblock;
use std::alloc::Global;

impl Array {
    /// The role that member k gets, where it may come into sync. The fault is the first in the order of
    /// `EnrolFault`.
    pub fn check_enrol(&self, k: usize) -> Result<u16, EnrolFault>
        requires within { k < length self.now.members }
        requires recovering { (m : MemberView) → IsMember self.now k m → is_recovering m.state ≡ true }
        ensures { MatchResult result (MayTakeRole k self.now) (RefusesRole self.now) }
    {
        if self.halted {
            return Err(EnrolFault::Halted);
        }
        if self.shared.events == u64::MAX {
            return Err(EnrolFault::EventsFull);
        }
        match self.members[k].state {
            MemberState::Recovering(role) => Ok(role),
            _ => unreachable!(),
        }
    }

    /// Member k as it is kept once it is in sync in this role, with the copied chunks and without the
    /// orphans. Nothing is changed yet.
    pub fn member_in_sync(
        &self,
        alloc: Global,
        k: usize,
        role: u16,
        copied: &Marks,
        orphans: &Marks,
    ) -> Result<Member, EnrolFault>
        requires within { k < length self.now.members }
        requires copied { copied.now.chunks ≡ div_ceil self.now.chunks.size self.now.chunks.sectors }
        requires orphans { orphans.now.chunks ≡ div_ceil self.now.chunks.size self.now.chunks.sectors }
        ensures { MatchResult result (ComesWith k role (in_chunks self.now.chunks copied.now) (in_chunks self.now.chunks orphans.now) self.now)
            (RefusesEnrolledMember k (in_chunks self.now.chunks copied.now) (in_chunks self.now.chunks orphans.now) self.now) }
    {
        let member = &self.members[k];
        if entries_after(member, self.chunks, copied, orphans) > log_room(&member.superblock) {
            return Err(EnrolFault::LogFull(k));
        }
        let Ok(list) = list_after(alloc, member, self.chunks, copied, orphans) else {
            return Err(EnrolFault::NoMemory);
        };
        match in_sync(alloc, member, role, list, &self.marks) {
            Ok(member) => Ok(member),
            Err(_) => Err(EnrolFault::NoMemory),
        }
    }

    /// Member k as it is kept once it is in sync in this role, with the missing chunks but for the lost
    /// sectors of the array. Nothing is changed yet. Its list is made first: `NoMemory` may come before
    /// `LogFull`.
    pub fn member_but_for(
        &self,
        alloc: Global,
        k: usize,
        role: u16,
        missing: &Marks,
        lost: &BadSet,
    ) -> Result<Member, EnrolFault>
        requires within { k < length self.now.members }
        requires missing { missing.now.chunks ≡ div_ceil self.now.chunks.size self.now.chunks.sectors }
        ensures { MatchResult result (ComesWith k role (in_chunks_but self.now.chunks missing.now lost.now) (in_runs lost.now) self.now)
            (RefusesMadeMember k (in_chunks_but self.now.chunks missing.now lost.now) (in_runs lost.now) self.now) }
    {
        let member = &self.members[k];
        let offset = member.superblock.data_offset;
        let Ok(list) = list_but_for(alloc, &member.bad, offset, self.chunks, missing, lost) else {
            return Err(EnrolFault::NoMemory);
        };
        if list.entries_needed() > log_room(&member.superblock) {
            return Err(EnrolFault::LogFull(k));
        }
        match in_sync(alloc, member, role, list, &self.marks) {
            Ok(member) => Ok(member),
            Err(_) => Err(EnrolFault::NoMemory),
        }
    }

    /// Whether each role has a member in sync, once a member that is not comes into sync in this role.
    pub fn is_full_with(&self, role: u16) -> bool
        ensures { (k : ℕ) (m n : MemberView) → IsMember self.now k m → is_in_sync m.state ≡ false → n.state ≡ state.InSync role
            → result ≡ is_full_with self.now k n }
    {
        !self.lacks_beside(role)
    }

    /// Member k has come into sync, and is this from now on, with the array's fields as `shared_with` gives
    /// them. `full` is whether the array is so.
    pub fn note_enrolled(&mut self, k: usize, member: Member, shared: Superblock, full: bool)
        requires { k < length self.old.members }
        ensures { self.new ≡ record self.old {
          shared = shared;
          members = set (map made_due self.old.members) k member;
          events_cleared = cond full shared.events self.old.events_cleared;
        } }
    {
        if full {
            self.events_cleared = shared.events;
        }
        self.shared = shared;
        make_due(&mut self.members);
        self.members[k] = member;
    }

    // Whether some role has no member in sync, but for this one.
    fn lacks_beside(&self, role: u16) -> bool
        ensures { result ≡ list_any (λ r. not (role == r || is_filled self.now r)) (range_with_len 0 self.now.shared.raid_disks) }
    {
        (0..self.shared.raid_disks).any(|r| !(u32::from(role) == r || self.is_filled(r)))
    }
}
