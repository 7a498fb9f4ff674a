// A spare is admitted.
ghost use Rattle.std.specs.Prelude.{◌≡◌, ◌<◌, MatchOption, MatchResult, length, map, set};
ghost use Rattle.md_kept_members.specs.Members.{made_due};
ghost use Rattle.md_kept_members.specs.TakingBack.{admitted_member, recovering};
ghost use Rattle.md_kept_members.specs.View.{MemberView};
ghost use Rattle.md_state.specs.Steps.Admit.{GetsNoRole, GetsRole, MayAdmit, RefusesToAdmit};
ghost use Rattle.md_state.specs.Members.{IsMember};

use crate::array::Array;
use md_faults::AdmitFault;
use md_kept_members::{Member, least_free_role, make_due, note_admitted};
use md_super::{MAX_ROLES, Superblock};

impl Array {
    /// The role that member k, a spare, gets. The fault is the first in the order of `AdmitFault`.
    pub fn check_admit(&self, k: usize) -> Result<u16, AdmitFault>
        requires within { k < length self.now.members }
        ensures { MatchResult result (MayAdmit k self.now) (RefusesToAdmit k self.now) }
    {
        if self.halted {
            return Err(AdmitFault::Halted);
        }
        let Some(role) = self.role_for(&self.members[k]) else {
            return Err(AdmitFault::NoRole);
        };
        if self.shared.events == u64::MAX {
            return Err(AdmitFault::EventsFull);
        }
        Ok(role)
    }

    /// Member k was admitted in this role, with this superblock, which is stored, and with the array's
    /// fields as `shared_with` gives them.
    pub fn note_admitted(&mut self, k: usize, role: u16, own: Superblock, shared: Superblock)
        requires within { k < length self.old.members }
        requires own { (m : MemberView) → IsMember self.old k m → own ≡ recovering 0 m.superblock }
        ensures { (m : MemberView) → IsMember self.old k m → self.new ≡ record self.old {
          shared = shared;
          members = set (map made_due self.old.members) k (admitted_member role m);
        } }
    {
        self.note_risen(shared);
        self.take_role(k, role, own);
    }

    // The count has risen, and each superblock is due.
    fn note_risen(&mut self, shared: Superblock)
        ensures { self.new ≡ record self.old { shared = shared; members = map made_due self.old.members } }
    {
        self.shared = shared;
        make_due(&mut self.members);
    }

    fn take_role(&mut self, k: usize, role: u16, own: Superblock)
        requires within { k < length self.old.members }
        requires own { (m : MemberView) → IsMember self.old k m → own ≡ recovering 0 m.superblock }
        ensures { (m : MemberView) → IsMember self.old k m → self.new ≡ record self.old { members = set self.old.members k (admitted_member role m) } }
    {
        note_admitted(&mut self.members[k], role, own);
    }

    fn role_for(&self, member: &Member) -> Option<u16>
        ensures { MatchOption result (GetsNoRole self.now member.now) (GetsRole self.now member.now) }
    {
        if member.superblock.dev_number >= MAX_ROLES {
            return None;
        }
        least_free_role(&self.shared, &self.members)
    }
}
