// A device that left may be taken back.
ghost use Rattle.std.specs.Prelude.{◌≡◌, ◌↔◌, ◌≤◌, IsTrue, MatchResult, Some};
ghost use Rattle.md_bitmap.specs.Marks.{Bitmap};
ghost use Rattle.md_kept_members.specs.Remembering.{IsWhole};
ghost use Rattle.md_state.specs.Steps.ReAdd.{HasNoOtherClearing, HasNoOtherMarks, IsOffsetBack, IsReAddable, LeftInTime, MayReAdd, RefusesToTakeBack};

use crate::array::Array;
use crate::steps::note_joined::MOST_MEMBERS;
use md_assembly::state_of;
use md_bitmap::BitmapHeader;
use md_faults::ReAddFault;
use md_kept_members::{has_newcomer, is_of_array, is_taken, left_its_role};
use md_members::{MemberInfo, accepted};
use md_super::Superblock;

impl Array {
    /// Whether a device that was read as this may be taken back.
    pub fn check_re_add(&self, info: &MemberInfo) -> Result<(), ReAddFault>
        ensures { MatchResult result (λ _. MayReAdd self.now info.now) (RefusesToTakeBack self.now info.now) }
    {
        if self.members.len() >= MOST_MEMBERS {
            return Err(ReAddFault::Full);
        }
        if !self.is_re_addable(info) {
            return Err(ReAddFault::NotReAddable);
        }
        if is_taken(
            &self.members,
            info.superblock.role_of(info.superblock.dev_number),
        ) {
            return Err(ReAddFault::NoRole);
        }
        if self.shared.events == u64::MAX {
            return Err(ReAddFault::EventsFull);
        }
        Ok(())
    }

    /// The offset that a device comes back with: the array's size where it lacks the marked chunks alone,
    /// and 0 where it was used elsewhere since it left, is an older copy of its device, or may have been replaced
    /// since, so that it lacks every chunk.
    pub fn offset_back(&self, info: &MemberInfo) -> u64
        requires whole { IsWhole info.now }
        requires chunks { (marks : Bitmap) → info.now.marks ≡ Some marks → self.now.marks.chunks ≤ marks.chunks }
        ensures { IsOffsetBack self.now info.now result }
    {
        if self.has_no_other_marks(info) {
            self.chunks.size
        } else {
            0
        }
    }

    fn has_no_other_marks(&self, info: &MemberInfo) -> bool
        requires whole { IsWhole info.now }
        requires chunks { (marks : Bitmap) → info.now.marks ≡ Some marks → self.now.marks.chunks ≤ marks.chunks }
        ensures { IsTrue result ↔ HasNoOtherMarks self.now info.now }
    {
        let Some(header) = &info.header else {
            return false;
        };
        let Some(marks) = &info.marks else {
            return false;
        };
        if !self.has_no_other_clearing(&info.superblock, header) {
            return false;
        }
        accepted(&info.superblock, header) && self.marks.has_all_of(marks)
    }

    // Whether nothing tells that marks were cleared on the device alone since it left, or in the array without it.
    fn has_no_other_clearing(&self, own: &Superblock, header: &BitmapHeader) -> bool
        ensures { IsTrue result ↔ HasNoOtherClearing self.now own.now header.now }
    {
        header.events_cleared <= self.events_cleared
            && !state_of(&self.shared, own).is_stale()
            && !has_newcomer(&self.shared, own)
    }

    fn is_re_addable(&self, info: &MemberInfo) -> bool
        ensures { IsTrue result ↔ IsReAddable self.now info.now }
    {
        let Some(header) = &info.header else {
            return false;
        };
        let own = &info.superblock;
        if !is_of_array(&self.shared, self.chunks.sectors, own, header) {
            return false;
        }
        left_its_role(&self.shared, &self.members, own) && self.left_in_time(own)
    }

    fn left_in_time(&self, own: &Superblock) -> bool
        ensures { IsTrue result ↔ LeftInTime self.now own.now }
    {
        self.events_cleared <= own.events && own.events <= self.shared.events
    }
}
