// Data are about to change of which a recovering member's superblock says that it has them.
ghost use Rattle.std.specs.Prelude.{◌≡◌, ◌<◌, length, true};
ghost use Rattle.md_assembly.specs.States.{is_recovering};
ghost use Rattle.md_kept_members.specs.TakingBack.{lowered_member};
ghost use Rattle.md_kept_members.specs.View.{MemberView};
ghost use Rattle.md_state.specs.Members.{IsMember};
ghost use Rattle.md_state.specs.Steps.Checkpoint.{with_member_at};
ghost use Rattle.md_state.specs.Steps.LowerOffset.{Lowers};

use crate::array::Array;
use md_kept_members::lower_offset;

impl Array {
    /// What `Mirror::lower_offset` does, whatever its devices are: it uses none.
    pub fn lower_offset(&mut self, k: usize, sector: u64)
        requires within { k < length self.old.members }
        requires recovering { (m : MemberView) → IsMember self.old k m → is_recovering m.state ≡ true }
        ensures { Lowers k sector self.old self.new }
    {
        self.lower_member(k, sector);
    }

    fn lower_member(&mut self, k: usize, sector: u64)
        requires { k < length self.old.members }
        ensures { (m : MemberView) → IsMember self.old k m → self.new ≡ with_member_at self.old k (lowered_member sector m) }
    {
        lower_offset(&mut self.members[k], sector);
    }
}
