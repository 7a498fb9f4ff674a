// Whether a request's bytes may be written to a member.
ghost use Rattle.std.specs.Prelude.{◌≡◌, ◌<◌, List, [], ◌∷◌, ◌++◌, Some, MatchResult, length};
ghost use Rattle.md_inflight.specs.Requests.Pending.{request_sectors};
ghost use Rattle.std.specs.List.{position};
ghost use Rattle.md_kept_members.specs.TakingBack.{member_says_of};
ghost use Rattle.md_kept_members.specs.View.{MemberView};
ghost use Rattle.md_state.specs.Steps.Begin.{IsInRange};
ghost use Rattle.md_state.specs.InMemory.{HasMarksOfSize};
ghost use Rattle.md_state.specs.Members.{IsMember};
ghost use Rattle.md_state.specs.View.{Disk};
ghost use Rattle.md_state.specs.Steps.WriteMember.{MayWrite, RefusesWriteMember};

use crate::array::Array;
use md_faults::WriteMemberFault;
use md_inflight::{Pending, note_written};
use md_kept_members::says_of;

impl Array {
    /// Whether member k may get the bytes: data come after marks and records.
    pub fn check_write(&self, pending: &Pending<'_>, k: usize) -> Result<(), WriteMemberFault>
        requires within { k < length self.now.members }
        requires chunks { HasMarksOfSize self.now }
        requires range { IsInRange self.now pending.now.sector (request_sectors pending.now) }
        ensures { (disks : List Disk) → MatchResult result (λ _. (m : MemberView) → IsMember self.now k m → MayWrite k self.now pending.now m)
            (RefusesWriteMember k (record { disks = disks; array = self.now }) (record { disks = disks; array = self.now }) pending.now pending.now) }
    {
        if self.halted {
            return Err(WriteMemberFault::Halted);
        }
        let member = &self.members[k];
        if !member.state.is_in_sync() {
            return Err(WriteMemberFault::NotActive);
        }
        let (first, end) = self.chunks.chunks_of(pending.sector(), pending.sectors());
        if let Some(j) = self.first_unmarked(first, end) {
            return Err(WriteMemberFault::NotMarked(j));
        }
        if let Some(j) = self.first_due() {
            return Err(WriteMemberFault::NotRecorded(j));
        }
        if let Some(j) = self.first_to_say(self.chunk_start(pending.sector())) {
            return Err(WriteMemberFault::NotRecorded(j));
        }
        if pending.has_written(member.superblock.dev_number) {
            return Err(WriteMemberFault::AlreadyWritten);
        }
        Ok(())
    }

    // The first recovering member whose superblock says that it has this sector.
    fn first_to_say(&self, sector: u64) -> Option<usize>
        ensures { result ≡ position (member_says_of sector) self.now.members }
    {
        self.members
            .iter()
            .position(|member| says_of(member, sector))
    }

    /// The member of this number has the bytes. Only a mirror that wrote them may say so.
    pub fn note_written(&self, pending: &mut Pending<'_>, dev_number: u32)
        requires room { length pending.old.written < 64 }
        ensures { pending.new ≡ record pending.old { written = pending.old.written ++ dev_number ∷ [] } }
    {
        note_written(pending, dev_number);
    }
}
