// What is kept of a log that was stored.
ghost use Rattle.std.specs.Prelude.{◌≡◌, ◌<◌, length, set};
ghost use Rattle.md_kept_members.specs.View.{MemberView};
ghost use Rattle.md_state.specs.Members.{IsMember};
ghost use Rattle.md_state.specs.Steps.StoreLog.{logged};

use crate::array::Array;
use md_kept_members::note_logged;

impl Array {
    /// The log of member k was stored as its list is, and its superblock is due.
    pub fn note_log_stored(&mut self, k: usize)
        requires { k < length self.old.members }
        ensures { (m : MemberView) → IsMember self.old k m → self.new ≡ record self.old { members = set self.old.members k (logged m) } }
    {
        note_logged(&mut self.members[k]);
    }
}
