// A device comes in as a member.
ghost use Rattle.std.specs.Prelude.{◌≡◌, ◌++◌, ◌∷◌, ◌<◌, List, [], IfOk, cond, false, length, map};
ghost use Rattle.md_kept_members.specs.Members.{made_due};
ghost use Rattle.md_kept_members.specs.View.{MemberView};
ghost use Rattle.md_kept_members.specs.Membership.Joining.{joined_shared};
ghost use Rattle.md_state.specs.Steps.Rise.{HasSpentEvents};

use crate::array::Array;
use md_kept_members::{joined_superblock, make_due};
use md_super::Superblock;
use std::alloc::{AllocError, Global};

/// The members that an array may have.
pub(crate) const MOST_MEMBERS: usize = 64;

impl Array {
    /// The array's fields as they are once the device with this number has come in with this role. Nothing
    /// is changed yet.
    pub fn shared_with(
        &self,
        alloc: Global,
        number: u32,
        role: u16,
    ) -> Result<Superblock, AllocError>
        requires { HasSpentEvents self.now → ⊥ }
        ensures { IfOk result (λ v. v ≡ joined_shared self.now.shared self.now.members number role) }
    {
        joined_superblock(alloc, &self.shared, &self.members, number, role)
    }

    /// The member that stands last has come in, with the array's fields as `shared_with` gives them. `full`
    /// is whether the array is so.
    pub fn note_joined(&mut self, shared: Superblock, full: bool)
        requires { 0 < length self.old.members }
        ensures { (members : List MemberView) (m : MemberView) → self.old.members ≡ members ++ m ∷ []
            → self.new ≡ record self.old {
              shared = shared;
              members = map made_due members ++ record m { due = false } ∷ [];
              events_cleared = cond full shared.events self.old.events_cleared;
            } }
    {
        if full {
            self.events_cleared = shared.events;
        }
        self.shared = shared;
        self.make_others_due();
    }

    // The superblock of each member that is kept up to date has to be stored, but for that of the last.
    fn make_others_due(&mut self)
        requires { 0 < length self.old.members }
        ensures { (members : List MemberView) (m : MemberView) → self.old.members ≡ members ++ m ∷ []
            → self.new ≡ record self.old { members = map made_due members ++ record m { due = false } ∷ [] } }
    {
        let last = self.members.len() - 1;
        make_due(&mut self.members);
        self.members[last].due = false;
    }
}
