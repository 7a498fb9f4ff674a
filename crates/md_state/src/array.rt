// What is kept in memory of an array.
ghost use Rattle.std.specs.Prelude.{◌≡◌, ◌↔◌, ◌<◌, ◌&&◌, ◌≤◌, IfOk, map, ℕ, MatchOption, position, length, nat_lt};
ghost use Rattle.std.specs.Int.{bit_at, div_ceil};
ghost use Rattle.md_model.specs.Sectors.{is_passed};
ghost use Rattle.md_bitmap.specs.Marks.{is_set};
ghost use Rattle.md_assembly.specs.Assembled.{IsAssembled};
ghost use Rattle.md_assembly.specs.Faults.{NoAssembleFault};
ghost use Rattle.md_assembly.specs.States.{is_in_sync};
ghost use Rattle.md_kept_members.specs.Kept.{with_known_offset};
ghost use Rattle.md_kept_members.specs.Remembering.{AreWhole};
ghost use Rattle.md_kept_members.specs.View.{MemberView};
ghost use Rattle.md_state.specs.Remembered.{IsRemembered};
ghost use Rattle.md_state.specs.Members.{IsPermitted, is_degraded, is_filled, AllInSync, IsFirstInSyncWithout, IsMember};
ghost use Rattle.md_state.specs.InMemory.{HasMarksOfSize};
ghost use Rattle.md_state.specs.Requests.{lacks};
ghost use Rattle.md_state.specs.Steps.WriteMember.{HasMarksFrom};
ghost use Rattle.md_state.specs.Missing.{AreMissing, is_missing, is_re_added};
ghost use Rattle.md_state.specs.View.{geometry_of};

use md_assembly::Assembly;
use md_bitmap::{Chunks, Marks};
use md_inflight::{Extent, Inflight, Pending, no_requests};
use md_kept_members::{
    Member, chunking_of, drop_old_offsets, is_resynced, last_cleared, members_of, permitted_roles,
    united_marks,
};
use md_members::MemberInfo;
use md_super::Superblock;
use std::alloc::{AllocError, Global};
use std::marker::Model;

/// All that a mirror keeps in memory.
#[derive(Drop)]
pub struct Array {
    /// In the order of the devices that were opened.
    pub members: Vec<Member>,
    /// The array's fields, as they are stored next in each member's superblock.
    pub shared: Superblock,
    pub chunks: Chunks,
    /// The chunks that are marked in memory.
    pub marks: Marks,
    /// The event count as it last rose while the array was not degraded.
    pub events_cleared: u64,
    /// Whether members in sync hold the same but for requests in flight: at an opening, where no chunk is
    /// marked or one member alone is in sync; after that as the last resync ended.
    pub resynced: bool,
    /// A failed write could not be recorded: nothing is written any more.
    pub halted: bool,
    /// The sectors of each request in flight.
    pub requests: Inflight<Extent>,
}

impl Model for Array {
    ghost use Rattle.md_state.specs.View.{ArrayView};

    ghost Value = { ArrayView };

    ghost view = { λ a. record {
      members = a.members.items;
      shared = a.shared;
      chunks = a.chunks;
      marks = a.marks;
      events_cleared = a.events_cleared;
      resynced = a.resynced;
      halted = a.halted;
      requests = a.requests;
    } };
}

// What is kept in memory of the array that members make.
impl Array {
    /// The array of these members, whose states are those that assembly found.
    pub fn remember(
        alloc: Global,
        infos: Vec<MemberInfo>,
        assembly: Assembly,
    ) -> Result<Array, AllocError>
        requires whole { AreWhole infos.items }
        requires assembled { IsAssembled infos.items assembly }
        requires sound { NoAssembleFault infos.items }
        ensures { IfOk result (λ a. IsRemembered infos.items assembly a) }
    {
        let freshest = &infos[assembly.freshest];
        let shared = freshest.superblock.try_clone(alloc)?;
        let chunks = chunking_of(freshest);
        let read = members_of(alloc, infos, &assembly.states, shared.events)?;
        let events_cleared = last_cleared(&read, shared.events);
        let members = with_known_offsets(read, events_cleared);
        let marks = united_marks(alloc, &members, chunks.count())?;
        let resynced = is_resynced(&members, &marks);
        Ok(Array {
            members,
            shared,
            chunks,
            marks,
            events_cleared,
            resynced,
            halted: false,
            requests: no_requests(alloc),
        })
    }
}

// The members with the offsets that count, where marks were last cleared at these events.
fn with_known_offsets(members: Vec<Member>, cleared: u64) -> Vec<Member>
    ensures { result.items ≡ map (with_known_offset cleared) members.items }
{
    let mut members = members;
    drop_old_offsets(&mut members, cleared);
    members
}

// What is found by going through the members.
impl Array {
    /// Whether some role has no member in sync.
    pub fn is_degraded(&self) -> bool
        ensures { result ≡ is_degraded self.now }
    {
        (0..self.shared.raid_disks).any(|role| !self.is_filled(role))
    }

    /// The roles in which a chunk may be read: bit r is set where the member that is in sync in role r
    /// lists no sector of it, and is not write-mostly; where there is none, also where it is.
    pub fn permitted(&self, chunk: u32) -> u32
        requires { chunk < div_ceil self.now.chunks.size self.now.chunks.sectors }
        ensures { (role : ℕ) → role < 32 → (bit_at result role ≡ 1) ↔ IsPermitted self.now chunk role }
    {
        permitted_roles(&self.members, self.chunks, chunk)
    }

    /// Whether a member is in sync in the role.
    pub(crate) fn is_filled(&self, role: u32) -> bool
        ensures { result ≡ is_filled self.now role }
    {
        self.members
            .iter()
            .any(|member| member.state.is_in_sync_as(role))
    }
}

// Members in sync that lack something.
impl Array {
    /// The first member in sync whose superblock has to be stored.
    pub(crate) fn first_due(&self) -> Option<usize>
        ensures { result ≡ position (λ m. is_in_sync m.state && m.due) self.now.members }
    {
        self.members
            .iter()
            .position(|member| member.state.is_in_sync() && member.due)
    }

    /// The first member in sync that lacks the request's bytes.
    pub(crate) fn first_unwritten(&self, pending: &Pending<'_>) -> Option<usize>
        ensures { result ≡ position (lacks pending.now) self.now.members }
    {
        self.members.iter().position(|member| {
            member.state.is_in_sync() && !pending.has_written(member.superblock.dev_number)
        })
    }

    /// The first member in sync on which a mark of the chunks from `first` on and below `end`
    /// is not stored.
    pub(crate) fn first_unmarked(&self, first: u32, end: u32) -> Option<usize>
        requires chunks { HasMarksOfSize self.now }
        requires within { end ≤ self.now.marks.chunks }
        ensures { MatchOption result (AllInSync self.now (HasMarksFrom first end)) (IsFirstInSyncWithout self.now (HasMarksFrom first end)) }
    {
        for k in 0..self.members.len() {
            let member = &self.members[k];
            if member.state.is_in_sync() && !member.stored.is_range_marked(first, end) {
                return Some(k);
            }
        }
        None
    }
}

// What a member lacks.
impl Array {
    /// The chunks that member k lacks.
    pub fn missing(&self, alloc: Global, k: usize) -> Result<Marks, AllocError>
        requires { k < length self.now.members }
        ensures { (m : MemberView) → IsMember self.now k m → IfOk result (AreMissing self.now m) }
    {
        let member = &self.members[k];
        if member.state.is_in_sync() {
            return Marks::none(alloc, self.marks.chunks());
        }
        if !member.state.is_recovering() {
            return Marks::all(alloc, self.marks.chunks());
        }
        let mut missing = copy_of(alloc, &self.marks)?;
        missing.mark_range(self.first_unpassed(member.offset), self.marks.chunks());
        Ok(missing)
    }

    /// Whether member k lacks a chunk.
    pub fn is_missing(&self, k: usize, chunk: u32) -> bool
        requires within { k < length self.now.members }
        requires chunk { chunk < self.now.marks.chunks }
        ensures { (m : MemberView) → IsMember self.now k m → result ≡ is_missing self.now m chunk }
    {
        let member = &self.members[k];
        if member.state.is_in_sync() {
            return false;
        }
        if !member.state.is_recovering() {
            return true;
        }
        self.marks.is_marked(chunk) || !self.has_passed(member.offset, chunk)
    }

    /// Whether member k is recovering and lacks the marked chunks alone.
    pub fn is_re_added(&self, k: usize) -> bool
        requires { k < length self.now.members }
        ensures { (m : MemberView) → IsMember self.now k m → result ≡ is_re_added self.now m }
    {
        let member = &self.members[k];
        member.state.is_recovering() && self.chunks.size <= member.offset
    }

    // The first chunk that this offset has not passed.
    fn first_unpassed(&self, offset: u64) -> u32
        ensures within { result ≤ self.now.marks.chunks }
        ensures splits { (c : ℕ) → c < self.now.marks.chunks → is_passed (geometry_of self.now) offset c ≡ nat_lt c result }
    {
        let chunks = self.marks.chunks();
        if self.chunks.size <= offset {
            return chunks;
        }
        let passed = offset / u64::from(self.chunks.sectors);
        passed.min(u64::from(chunks)) as u32
    }

    // Whether no sector of the chunk is at this offset or past it.
    fn has_passed(&self, offset: u64, chunk: u32) -> bool
        ensures { result ≡ is_passed (geometry_of self.now) offset chunk }
    {
        let end = (u64::from(chunk) + 1) * u64::from(self.chunks.sectors);
        self.chunks.size <= offset || end <= offset
    }
}

// Marks of the same chunks as these.
fn copy_of(alloc: Global, marks: &Marks) -> Result<Marks, AllocError>
    ensures chunks { IfOk result (λ copy. copy.chunks ≡ marks.now.chunks) }
    ensures bits { IfOk result (λ copy. (c : ℕ) → c < marks.now.chunks
        → is_set copy.bytes c ≡ is_set marks.now.bytes c) }
{
    let mut copy = Marks::none(alloc, marks.chunks())?;
    copy.unite(marks);
    Ok(copy)
}
