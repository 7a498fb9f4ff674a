// The mirror, and what can be seen of it.
ghost use Rattle.std.specs.Prelude.{◌≡◌, ◌↔◌, ◌<◌, ◌≤◌, ℕ, IsTrue, Some, length, map, option_map, slice_get, IfOk, false, true};
ghost use Rattle.std.specs.Int.{bit_at, div_ceil};
ghost use Rattle.md_model.specs.Sectors.{block_of};
ghost use Rattle.md_bitmap.specs.Marks.{is_set};
ghost use Rattle.md_members.specs.Areas.{bitmap_sectors};
ghost use Rattle.md_kept_members.specs.View.{MemberView};
ghost use Rattle.md_kept_members.specs.Members.{NeedsMarks};
ghost use Rattle.md_state.specs.View.{disk_of};
ghost use Rattle.md_state.specs.Missing.{is_re_added, AreMissing, is_missing};
ghost use Rattle.md_state.specs.Members.{IsAlone, IsMember, IsPermitted, is_degraded};
ghost use Rattle.md_state.specs.Steps.Checkpoint.{IsFirstEnd};
ghost use Rattle.md_state.specs.Steps.WriteMember.{HasMarksFrom};
ghost use Rattle.md_array.specs.Consistency.{IsConsistent};
ghost use Rattle.md_array.specs.InSyncCount.{count_in_sync};
ghost use Rattle.md_array.specs.InTurn.{HasSector};

use md_assembly::MemberState;
use md_badblocks::BadSet;
use md_bitmap::{CHUNKS_OF_HEADER, CHUNKS_OF_SECTOR, Chunks, Marks};
use md_device::Device;
use md_kept_members::needs_marks;
use md_state::Array;
use md_super::Superblock;
use std::alloc::{AllocError, Global};
use std::marker::Model;

/// An array on its devices. Members are counted from 0, in the order of the devices that were opened.
///
/// Contracts see the devices and all that is kept in memory (`specs/View.antt` of `md_state`). No observer takes
/// memory.
#[derive(Drop)]
pub struct Mirror<D: Device + Drop> {
    pub(crate) devices: Vec<D>,
    pub(crate) array: Array,
}

impl<D: Device + Drop> Model for Mirror<D> {
    ghost use Rattle.std.specs.Prelude.{map};
    ghost use Rattle.md_state.specs.View.{MirrorView, disk_of};

    ghost Value = { MirrorView };

    ghost view = { λ m. record { disks = map (disk_of D.Device) m.devices.items; array = m.array } };
}

impl<D: Device + Drop> Mirror<D> {
    /// How many members there are.
    pub fn members(&self) -> usize
        ensures { result ≡ length self.now.array.members }
    {
        self.array.members.len()
    }

    /// The state of member k.
    pub fn state(&self, k: usize) -> MemberState
        requires { k < length self.now.array.members }
        ensures { option_map (λ m. m.state) (slice_get self.now.array.members k) ≡ Some result }
    {
        self.array.members[k].state
    }

    /// Whether member k is recovering and lacks the marked chunks alone: it was re-added, or is rebuilt up
    /// to the end.
    pub fn re_added(&self, k: usize) -> bool
        requires { k < length self.now.array.members }
        ensures { (m : MemberView) → IsMember self.now.array k m → result ≡ is_re_added self.now.array m }
    {
        self.array.is_re_added(k)
    }

    /// The start of the first chunk that member k lacks and that is not among these, or of which it lists a sector; the array's size,
    /// where there is none. A checkpoint after these were copied stores it.
    pub fn checkpoint_end(&self, k: usize, copied: &Marks) -> u64
        requires within { k < length self.now.array.members }
        requires sound { IsConsistent self.now }
        requires copied { copied.now.chunks ≡ self.now.array.marks.chunks }
        ensures { (m : MemberView) → IsMember self.now.array k m → IsFirstEnd self.now.array m copied.now result }
    {
        self.array.checkpoint_end(k, copied)
    }

    /// Whether `open` stored marks on member k: it is in sync, and the bitmap that was read on it is
    /// not accepted. Ask it before any step, since a step may change what the bitmap is compared with.
    pub fn stored_marks_at_opening(&self, k: usize) -> bool
        requires { k < length self.now.array.members }
        ensures { (m : MemberView) → IsMember self.now.array k m → IsTrue result ↔ NeedsMarks m }
    {
        let array = &self.array;
        let member = &array.members[k];
        needs_marks(member)
    }

    /// Whether member k's superblock has to be stored.
    pub fn due(&self, k: usize) -> bool
        requires { k < length self.now.array.members }
        ensures { option_map (λ m. m.due) (slice_get self.now.array.members k) ≡ Some result }
    {
        self.array.members[k].due
    }

    /// The superblock of member k, of which its own fields count, as they are stored next: those of the
    /// array are `shared`.
    pub fn own(&self, k: usize) -> &Superblock
        requires { k < length self.now.array.members }
        ensures { option_map (λ m. m.superblock) (slice_get self.now.array.members k) ≡ Some result.now }
    {
        &self.array.members[k].superblock
    }

    /// The sectors of member k's device that are listed as bad.
    pub fn bad(&self, k: usize) -> &BadSet
        requires { k < length self.now.array.members }
        ensures { option_map (λ m. m.bad) (slice_get self.now.array.members k) ≡ Some result.now }
    {
        &self.array.members[k].bad
    }

    /// The superblock of the array, of which the fields that all members share count.
    pub fn shared(&self) -> &Superblock
        ensures { result.now ≡ self.now.array.shared }
    {
        &self.array.shared
    }

    /// The event count of the array.
    pub fn events(&self) -> u64
        ensures { result ≡ self.now.array.shared.events }
    {
        self.array.shared.events
    }

    /// The chunks in which members may differ.
    pub fn marks(&self) -> &Marks
        ensures { result.now ≡ self.now.array.marks }
    {
        &self.array.marks
    }

    /// The chunks of the array.
    pub fn chunks(&self) -> Chunks
        ensures { result ≡ self.now.array.chunks }
    {
        self.array.chunks
    }

    /// Whether members in sync are known to hold the same in each sector that neither lists and no
    /// request in flight writes.
    pub fn resynced(&self) -> bool
        ensures { result ≡ self.now.array.resynced }
    {
        self.array.resynced
    }

    /// Whether no call can go on, since a failure can't be recorded.
    pub fn halted(&self) -> bool
        ensures { result ≡ self.now.array.halted }
    {
        self.array.halted
    }

    /// The number of the first request in flight, in order of entry, if there is one.
    pub fn in_flight(&self) -> Option<u64>
        ensures { result ≡ option_map (λ entry. entry.0) (slice_get self.now.array.requests.entries 0) }
    {
        let (number, _) = self.array.requests.iter().next()?;
        Some(number)
    }

    /// Whether some role has no member in sync: whether fewer members are in sync than there are raid
    /// disks, since the roles of members in sync differ and are below raid_disks.
    pub fn degraded(&self) -> bool
        ensures roles { result ≡ is_degraded self.now.array }
        ensures counted { IsConsistent self.now → IsTrue result ↔ (count_in_sync self.now.array < self.now.array.shared.raid_disks) }
    {
        self.array.is_degraded()
    }

    /// Whether more than one member is in sync.
    pub fn has_two_in_sync(&self) -> bool
        ensures one { result ≡ false → IsAlone self.now.array }
        ensures two { result ≡ true → IsAlone self.now.array → ⊥ }
    {
        let mut one = false;
        for k in 0..self.members() {
            if self.state(k).is_in_sync() {
                if one {
                    return true;
                }
                one = true;
            }
        }
        false
    }

    /// The roles in which a chunk may be read: bit r is set where the member that is in sync in role r
    /// lists no sector of it, and is not write-mostly; where there is none, also where it is.
    pub fn permitted(&self, chunk: u32) -> u32
        requires { chunk < div_ceil self.now.array.chunks.size self.now.array.chunks.sectors }
        ensures { (role : ℕ) → role < 32 → (bit_at result role ≡ 1) ↔ IsPermitted self.now.array chunk role }
    {
        self.array.permitted(chunk)
    }

    /// The devices, in the order of the members. Takes no memory.
    pub fn into_devices(self) -> Vec<D>
        ensures { map (disk_of D.Device) result.items ≡ self.disks }
    {
        self.devices
    }
}

// What a member lacks.
impl<D: Device + Drop> Mirror<D> {
    /// The chunks that member k lacks: none where it is in sync; where it is recovering the marked ones and
    /// those that its offset has not passed; all of them otherwise.
    pub fn missing(&self, alloc: Global, k: usize) -> Result<Marks, AllocError>
        requires { k < length self.now.array.members }
        ensures { (m : MemberView) → IsMember self.now.array k m → IfOk result (AreMissing self.now.array m) }
    {
        self.array.missing(alloc, k)
    }

    /// Whether member k lacks a chunk.
    pub fn is_missing(&self, k: usize, chunk: u32) -> bool
        requires within { k < length self.now.array.members }
        requires chunk { chunk < self.now.array.marks.chunks }
        ensures { (m : MemberView) → IsMember self.now.array k m → result ≡ is_missing self.now.array m chunk }
    {
        self.array.is_missing(k, chunk)
    }
}

// Whether marks are stored.
impl<D: Device + Drop> Mirror<D> {
    /// Whether the marks of all chunks from `first` on and below `end` are stored on member k, as far as
    /// the mirror knows.
    pub fn has_marks(&self, k: usize, first: u32, end: u32) -> bool
        requires within { k < length self.now.array.members }
        requires chunks { end ≤ self.now.array.marks.chunks }
        requires sound { IsConsistent self.now }
        ensures { (m : MemberView) → IsMember self.now.array k m → (result ≡ true) ↔ HasMarksFrom first end m }
    {
        let array = &self.array;
        let member = &array.members[k];
        member.stored.is_range_marked(first, end)
    }
}

// Whether a sector of a bitmap is stored.
impl<D: Device + Drop> Mirror<D> {
    /// Whether the bits of this sector of the bitmap are stored on member k as the marks in memory are, as
    /// far as the mirror knows.
    pub fn has_sector(&self, k: usize, block: u32) -> bool
        requires within { k < length self.now.array.members }
        requires block { block < bitmap_sectors self.now.array.marks.chunks }
        requires sound { IsConsistent self.now }
        ensures { (m : MemberView) → IsMember self.now.array k m → (result ≡ true) ↔ HasSector self.now.array block m }
    {
        let array = &self.array;
        let member = &array.members[k];
        is_alike(&array.marks, &member.stored, block)
    }
}

// Whether two bitmaps have the same bits in a sector.
fn is_alike(marks: &Marks, stored: &Marks, block: u32) -> bool
    requires few { block ≤ 257 }
    requires alike { stored.now.chunks ≡ marks.now.chunks }
    ensures { (result ≡ true) ↔ ((c : ℕ) → block_of c ≡ block → c < marks.now.chunks → is_set stored.now.bytes c ≡ is_set marks.now.bytes c) }
{
    let first = (CHUNKS_OF_SECTOR * block).saturating_sub(CHUNKS_OF_HEADER);
    let end = CHUNKS_OF_SECTOR * block + (CHUNKS_OF_SECTOR - CHUNKS_OF_HEADER);
    for chunk in first..end.min(marks.chunks()) {
        if stored.is_marked(chunk) != marks.is_marked(chunk) {
            return false;
        }
    }
    true
}
