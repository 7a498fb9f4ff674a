// A new device may come in.
ghost use Rattle.std.specs.Prelude.{◌≡◌, ◌+◌, ◌<◌, MatchResult, nat_le, ℕ, IfOk, length};
ghost use Rattle.md_bitmap.specs.Sound.{IsSoundHeader};
ghost use Rattle.md_kept_members.specs.View.{MemberView};
ghost use Rattle.md_kept_members.specs.Membership.Joining.{joined_shared};
ghost use Rattle.md_kept_members.specs.Membership.Numbers.{spare_role};
ghost use Rattle.md_state.specs.Steps.Add.{MayAdd, RefusesToAdd, HasRoomForData, IsSpareHeader, IsSpareOf};
ghost use Rattle.md_state.specs.Members.{IsMember};

use crate::array::Array;
use crate::steps::note_joined::MOST_MEMBERS;
use crate::steps::store_marks::fitting;
use md_bitmap::BitmapHeader;
use md_create::{BITMAP_RESERVED, DATA_SECTOR, NewMember, new_spare};
use md_faults::AddFault;
use md_kept_members::{freshest_header, new_number};
use md_super::Superblock;
use std::alloc::{AllocError, Global};

impl Array {
    /// The number that a new device of so many sectors gets, where it may come in. The fault is the first
    /// in the order of `AddFault`.
    pub fn check_add(&self, sectors: u64) -> Result<u32, AddFault>
        ensures { MatchResult result (MayAdd self.now sectors) (RefusesToAdd self.now sectors) }
    {
        if self.halted {
            return Err(AddFault::Halted);
        }
        if !is_long_enough(sectors, self.shared.size) {
            return Err(AddFault::TooSmall);
        }
        if self.members.len() >= MOST_MEMBERS {
            return Err(AddFault::Full);
        }
        if self.shared.events == u64::MAX {
            return Err(AddFault::EventsFull);
        }
        Ok(new_number(&self.shared, &self.members))
    }
}

// Whether a device of so many sectors is long enough for an array of this size.
fn is_long_enough(sectors: u64, size: u64) -> bool
    ensures { result ≡ nat_le (2048 + size) sectors }
{
    match sectors.checked_sub(DATA_SECTOR) {
        Some(room) => size <= room,
        None => false,
    }
}

// What a new device is laid out with.
impl Array {
    /// A new device of so many sectors that comes in as a spare with this number: `shared` has the
    /// array's fields then, as `shared_with` gives them. Nothing is changed yet.
    pub fn new_spare(
        &self,
        alloc: Global,
        shared: &Superblock,
        number: u32,
        sectors: u64,
    ) -> Result<NewMember, AllocError>
        requires shared { shared.now ≡ joined_shared self.now.shared self.now.members number spare_role }
        requires some { 0 < length self.now.members }
        requires sound { (k : ℕ) (m : MemberView) → IsMember self.now k m → IsSoundHeader self.now.shared.size m.header.chunksize }
        requires some_size { 0 < self.now.shared.size }
        requires long { HasRoomForData self.now sectors }
        ensures { IfOk result (IsSpareOf self.now number sectors) }
    {
        let settings = freshest_header(&self.members);
        let header = self.spare_header(&settings, shared.events);
        new_spare(alloc, shared, header, number, sectors)
    }

    // The header of its bitmap, once the count is this.
    fn spare_header(&self, settings: &BitmapHeader, events: u64) -> BitmapHeader
        requires sound { IsSoundHeader self.now.shared.size settings.now.chunksize }
        requires risen { events ≡ self.now.shared.events + 1 }
        ensures { IsSpareHeader self.now settings.now result }
    {
        let events_cleared = if self.is_degraded() {
            self.events_cleared
        } else {
            events
        };
        fitting(BitmapHeader {
            uuid: self.shared.set_uuid,
            events,
            events_cleared,
            sync_size: self.shared.size,
            state: 0,
            chunksize: settings.chunksize,
            daemon_sleep: settings.daemon_sleep,
            write_behind: settings.write_behind,
            sectors_reserved: BITMAP_RESERVED,
            nodes: settings.nodes,
            cluster_name: [0; 64],
        })
    }
}
