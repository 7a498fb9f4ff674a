// How far a recovering member is rebuilt.
ghost use Rattle.std.specs.Prelude.{◌≡◌, ◌<◌, ◌↔◌, ℕ, IsTrue, length, set};
ghost use Rattle.md_kept_members.specs.TakingBack.{with_offsets};
ghost use Rattle.md_kept_members.specs.View.{MemberView};
ghost use Rattle.md_state.specs.Steps.Checkpoint.{IsFirstEnd, EndsCheckpoint, with_member_at};
ghost use Rattle.md_state.specs.InMemory.{HasMarksOfSize};
ghost use Rattle.md_state.specs.Members.{IsMember};

use crate::array::Array;
use md_bitmap::Marks;
use md_kept_members::{lists_any, set_offsets};

impl Array {
    /// Member k is rebuilt up to `offset`, and its superblock is to have the offset `sure`.
    pub fn set_offsets(&mut self, k: usize, offset: u64, sure: u64)
        requires { k < length self.old.members }
        ensures { (m : MemberView) → IsMember self.old k m → self.new ≡ with_member_at self.old k (with_offsets offset sure m) }
    {
        set_offsets(&mut self.members[k], offset, sure);
    }

    /// The start of the first chunk that member k lacks and that is not among these, which were copied, or of which it lists a
    /// sector; the array's size, where there is none.
    pub fn checkpoint_end(&self, k: usize, copied: &Marks) -> u64
        requires within { k < length self.now.members }
        requires chunks { HasMarksOfSize self.now }
        requires copied { copied.now.chunks ≡ self.now.marks.chunks }
        ensures { (m : MemberView) → IsMember self.now k m → IsFirstEnd self.now m copied.now result }
    {
        for chunk in 0..self.marks.chunks() {
            if self.ends_checkpoint(k, copied, chunk) {
                return u64::from(chunk) * u64::from(self.chunks.sectors);
            }
        }
        self.chunks.size
    }

    fn ends_checkpoint(&self, k: usize, copied: &Marks, chunk: u32) -> bool
        requires within { k < length self.now.members }
        requires chunks { HasMarksOfSize self.now }
        requires copied { copied.now.chunks ≡ self.now.marks.chunks }
        requires chunk { chunk < self.now.marks.chunks }
        ensures { (m : MemberView) → IsMember self.now k m → IsTrue result ↔ EndsCheckpoint self.now m copied.now chunk }
    {
        if self.is_missing(k, chunk) && !copied.is_marked(chunk) {
            return true;
        }
        lists_any(&self.members[k], self.chunks, chunk)
    }
}
