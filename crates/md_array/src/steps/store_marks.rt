// Storing a sector of a member's bitmap.
ghost use Rattle.std.specs.Prelude.{◌<◌, ◌*◌, [], ◌∷◌, MatchResult, length};
ghost use Rattle.md_device.specs.Splice.{SameOutside};
ghost use Rattle.md_members.specs.Areas.{bitmap_sectors};
ghost use Rattle.md_members.specs.DeviceWrites.Writes.{MakesWrites, Write};
ghost use Rattle.md_inflight.specs.Requests.Pending.{PendingView};
ghost use Rattle.md_state.specs.Requests.{IsPending};
ghost use Rattle.md_state.specs.Steps.StoreMarks.{IsMarkWrite, RefusesMarkSector, StoresMarkSector};
ghost use Rattle.md_state.specs.View.{disk_of};
ghost use Rattle.md_array.specs.Consistency.{IsConsistent};
ghost use Rattle.md_array.specs.Fits.{FitsMember};
ghost use Rattle.md_array.specs.Events.{StoreMarksHappens};

use crate::mirror::Mirror;
use md_device::{Device, WriteFault};
use md_faults::StoreFault;
use md_kept_members::{Member, bitmap_start};
use md_members::store_bitmap_sector;
use md_state::Array;

impl<D: Device + Drop> Mirror<D> {
    /// Writes sector `block` of member k's bitmap by the marks in memory. Sector 0 holds the header too.
    /// It takes no memory. The fault is the first in the order of `StoreFault`.
    pub fn store_marks(&mut self, k: usize, block: u32) -> Result<(), StoreFault>
        requires within { k < length self.old.array.members }
        requires block { block < bitmap_sectors self.old.array.marks.chunks }
        requires sound { IsConsistent self.old }
        ensures gives { MatchResult result (λ _. StoresMarkSector k block self.old self.new) (RefusesMarkSector k block self.old self.new) }
        ensures event { StoreMarksHappens k block self.old self.new result }
        ensures sound { IsConsistent self.new }
        ensures pending { (p : PendingView) → IsPending self.old.array p → IsPending self.new.array p }
    {
        self.array.check_in_sync(k)?;
        let array = &self.array;
        let member = &array.members[k];
        if store_block(&mut self.devices[k], array, member, block).is_err() {
            return Err(self.array.store_failed(k));
        }
        self.array.note_stored(k, block);
        Ok(())
    }
}

// Writes a sector of a member's bitmap on its device.
fn store_block<D: Device>(
    device: &mut D,
    array: &Array,
    member: &Member,
    block: u32,
) -> Result<(), WriteFault>
    requires fits { FitsMember array.now member.now (disk_of D.Device device.old) }
    requires block { block < bitmap_sectors member.now.stored.chunks }
    ensures { (w : Write) × IsMarkWrite array.now member.now block w × MakesWrites D.Device (w ∷ []) device.old device.new result
        × SameOutside (512 * w.sector) (length w.bytes) (D.content device.old) (D.content device.new) }
{
    let start = bitmap_start(&member.superblock);
    let header = array.header_for(member);
    store_bitmap_sector(device, start, &header, &array.marks, block)
}
