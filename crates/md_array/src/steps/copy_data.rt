// Copying sectors to a member in sync.
ghost use Rattle.std.specs.Prelude.{◌/◌, ◌<◌, MatchResult, length};
ghost use Rattle.md_inflight.specs.Requests.Pending.{PendingView};
ghost use Rattle.md_state.specs.Steps.CopyData.{CopiesTo, IsCopy, RefusesCopy};
ghost use Rattle.md_state.specs.Requests.{IsPending};
ghost use Rattle.md_array.specs.Consistency.{IsConsistent};
ghost use Rattle.md_array.specs.Steps.CopyData.{CopyHappens};

use crate::mirror::Mirror;
use md_device::Device;
use md_faults::CopyFault;
use md_state::put_on;

impl<D: Device + Drop> Mirror<D> {
    /// Writes to member k what another member in sync holds from this sector of the array on, in one
    /// write of its device. The chunk of each sector is marked in memory and on each member in sync, and
    /// the other member is the first by role that lists none of them; `read_data` gives its bytes. It
    /// takes no memory.
    pub fn copy_data(&mut self, k: usize, sector: u64, bytes: &[u8]) -> Result<(), CopyFault>
        requires within { k < length self.old.array.members }
        requires sound { IsConsistent self.old }
        requires copy { IsCopy k sector bytes.now self.old }
        ensures gives { MatchResult result (λ _. CopiesTo k sector bytes.now self.old self.new) (RefusesCopy k sector (length bytes.now / 512) self.old self.new) }
        ensures event { CopyHappens k sector bytes.now self.old self.new result }
        ensures sound { IsConsistent self.new }
        ensures pending { (p : PendingView) → IsPending self.old.array p → IsPending self.new.array p }
    {
        let start = self.own(k).data_offset;
        if put_on(&mut self.devices, k, start, sector, bytes).is_err() {
            return Err(self.array.copy_failed(k));
        }
        Ok(())
    }
}
