// Sectors that a member could not give are listed as bad, in memory alone.
ghost use Rattle.std.specs.Prelude.{◌≡◌, ◌<◌, MatchResult, length, set};
ghost use Rattle.std.specs.Int.{div_ceil};
ghost use Rattle.md_kept_members.specs.View.{MemberView};
ghost use Rattle.md_state.specs.Members.{IsMember};
ghost use Rattle.md_kept_members.specs.SectorLists.{in_runs};
ghost use Rattle.md_state.specs.Steps.NoteBad.{ListsMore, MayNote, MayNoteMore, NotesBad, NotesMore, RefusesNote, RefusesNoteMore, WhyMoreUnlisted, WhyUnlisted};

use crate::array::Array;
use md_badblocks::BadSet;
use md_faults::NoteFault;
use md_kept_members::{entries_with, list_with, list_with_sectors, log_room};
use std::alloc::{AllocError, Global};

impl Array {
    /// Member k lists the chunk as bad. `store_log` stores that. The fault is the first in the order of
    /// `NoteFault`, and nothing is changed then.
    pub fn note_bad(&mut self, alloc: Global, k: usize, chunk: u32) -> Result<(), NoteFault>
        requires within { k < length self.old.members }
        requires chunk { chunk < div_ceil self.old.chunks.size self.old.chunks.sectors }
        ensures { MatchResult result (λ _. NotesBad k chunk self.old self.new) (RefusesNote k chunk self.old self.new) }
    {
        let list = self.list_noted(alloc, k, chunk)?;
        self.set_list(k, list);
        Ok(())
    }

    /// Member k lists these sectors of the array as bad too. `store_log` stores that. Nothing is changed at
    /// a fault. A list that the log has no room for is made first: `NoMemory` may come before `LogFull`.
    pub fn note_bad_sectors(
        &mut self,
        alloc: Global,
        k: usize,
        sectors: &BadSet,
    ) -> Result<(), NoteFault>
        requires { k < length self.old.members }
        ensures { MatchResult result (λ _. NotesMore k (in_runs sectors.now) self.old self.new) (RefusesNoteMore k (in_runs sectors.now) self.old self.new) }
    {
        let list = self.list_noted_more(alloc, k, sectors)?;
        self.set_list(k, list);
        Ok(())
    }

    /// Member k regards these sectors of the array as bad too, whatever room its log has. The list is not to be
    /// stored for that. Nothing is changed where memory is refused.
    pub fn regard_as_bad(
        &mut self,
        alloc: Global,
        k: usize,
        sectors: &BadSet,
    ) -> Result<(), AllocError>
        requires { k < length self.old.members }
        ensures { MatchResult result (λ _. ListsMore k (in_runs sectors.now) self.old self.new) (λ _. self.new ≡ self.old) }
    {
        let member = &self.members[k];
        let list = list_with_sectors(alloc, &member.bad, member.superblock.data_offset, sectors)?;
        self.set_list(k, list);
        Ok(())
    }

    // The list of member k with the chunk, if its log has room for that.
    fn list_noted(&self, alloc: Global, k: usize, chunk: u32) -> Result<BadSet, NoteFault>
        requires within { k < length self.now.members }
        requires chunk { chunk < div_ceil self.now.chunks.size self.now.chunks.sectors }
        ensures { MatchResult result (MayNote k chunk self.now) (WhyUnlisted k chunk self.now) }
    {
        if self.halted {
            return Err(NoteFault::Halted);
        }
        let member = &self.members[k];
        if entries_with(member, self.chunks, chunk) > log_room(&member.superblock) {
            return Err(NoteFault::LogFull(k));
        }
        let Ok(list) = list_with(alloc, member, self.chunks, chunk) else {
            return Err(NoteFault::NoMemory);
        };
        Ok(list)
    }

    // The list of member k with the sectors, if its log has room for that.
    fn list_noted_more(
        &self,
        alloc: Global,
        k: usize,
        sectors: &BadSet,
    ) -> Result<BadSet, NoteFault>
        requires { k < length self.now.members }
        ensures { MatchResult result (MayNoteMore k (in_runs sectors.now) self.now) (WhyMoreUnlisted k (in_runs sectors.now) self.now) }
    {
        if self.halted {
            return Err(NoteFault::Halted);
        }
        let member = &self.members[k];
        let offset = member.superblock.data_offset;
        let Ok(list) = list_with_sectors(alloc, &member.bad, offset, sectors) else {
            return Err(NoteFault::NoMemory);
        };
        if list.entries_needed() > log_room(&member.superblock) {
            return Err(NoteFault::LogFull(k));
        }
        Ok(list)
    }

    fn set_list(&mut self, k: usize, list: BadSet)
        requires { k < length self.old.members }
        ensures { (m : MemberView) → IsMember self.old k m → self.new ≡ record self.old { members = set self.old.members k (record m { bad = list }) } }
    {
        self.members[k].bad = list;
    }
}
