// Whether a sector of marks may be stored on a member, what is kept once it is, and its header.
ghost use Rattle.std.specs.Prelude.{◌<◌, ◌≡◌, ◌≤◌, MatchResult, length};
ghost use Rattle.md_bitmap.specs.Header.{CountsFit, SettingsFit};
ghost use Rattle.md_bitmap.specs.Sound.{IsSoundHeader};
ghost use Rattle.md_kept_members.specs.View.{MemberView};
ghost use Rattle.md_state.specs.Steps.StoreMarks.{IsServing, RefusesOutOfSync, HasStoredOf};
ghost use Rattle.md_state.specs.Members.{IsMember};
ghost use Rattle.md_state.specs.Headers.{IsHeaderFor};

use crate::array::Array;
use md_bitmap::BitmapHeader;
use md_faults::StoreFault;
use md_kept_members::{Member, copy_block};

impl Array {
    /// Whether the mirror runs and member k is in sync.
    pub fn check_in_sync(&self, k: usize) -> Result<(), StoreFault>
        requires { k < length self.now.members }
        ensures { MatchResult result (λ _. IsServing k self.now) (RefusesOutOfSync k self.now) }
    {
        if self.halted {
            return Err(StoreFault::Halted);
        }
        if self.members[k].state.is_in_sync() {
            Ok(())
        } else {
            Err(StoreFault::NotActive)
        }
    }
}

// What is kept of marks that were stored.
impl Array {
    /// Sector `block` of member k's bitmap is stored as the marks are.
    pub fn note_stored(&mut self, k: usize, block: u32)
        requires within { k < length self.old.members }
        requires few { block ≤ 257 }
        requires alike { (m : MemberView) → IsMember self.old k m → m.stored.chunks ≡ self.old.marks.chunks }
        ensures { (m : MemberView) → IsMember self.old k m → HasStoredOf k block m self.old self.new }
    {
        let member = &mut self.members[k];
        copy_block(&self.marks, &mut member.stored, block);
    }
}

// The header that is stored with marks.
impl Array {
    /// The header that is stored with a member's marks.
    pub fn header_for(&self, member: &Member) -> BitmapHeader
        requires { IsSoundHeader self.now.shared.size member.now.header.chunksize }
        ensures { IsHeaderFor self.now member.now result }
    {
        self.header_under(member, self.shared.events, self.events_cleared)
    }

    /// It, once the count is this, and marks were last cleared at that one.
    pub fn header_under(&self, member: &Member, events: u64, events_cleared: u64) -> BitmapHeader
        requires { IsSoundHeader self.now.shared.size member.now.header.chunksize }
        ensures { IsHeaderFor (record self.now { shared = record self.now.shared { events = events }; events_cleared = events_cleared }) member.now result }
    {
        fitting(BitmapHeader {
            uuid: self.shared.set_uuid,
            events,
            events_cleared,
            sync_size: self.shared.size,
            state: 0,
            chunksize: member.header.chunksize,
            daemon_sleep: member.header.daemon_sleep,
            write_behind: member.header.write_behind,
            sectors_reserved: member.header.sectors_reserved,
            nodes: member.header.nodes,
            cluster_name: member.header.cluster_name,
        })
    }
}

/// A header as it is: what it holds fits its fields.
pub(crate) fn fitting(header: BitmapHeader) -> BitmapHeader
    ensures same { result ≡ header }
    ensures uuid { length header.uuid ≡ 16 }
    ensures name { length header.cluster_name ≡ 64 }
    ensures counts { CountsFit header }
    ensures settings { SettingsFit header }
{
    let uuid: &[u8] = header.uuid.as_bytes();
    let name: &[u8] = &header.cluster_name;
    prove!(uuid.len() == 16);
    prove!(name.len() == 64);
    let BitmapHeader {
        events,
        events_cleared,
        sync_size,
        ..
    } = header;
    let BitmapHeader {
        state,
        chunksize,
        daemon_sleep,
        write_behind,
        sectors_reserved,
        nodes,
        ..
    } = header;
    header
}
