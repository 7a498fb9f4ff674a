// A recovering member is to say no more that it has data which are about to change.
ghost use Rattle.std.specs.Prelude.{◌≡◌, ◌<◌, length, true, false};
ghost use Rattle.md_assembly.specs.States.{is_recovering};
ghost use Rattle.md_kept_members.specs.View.{MemberView};
ghost use Rattle.md_inflight.specs.Requests.Pending.{PendingView};
ghost use Rattle.md_state.specs.Members.{IsMember};
ghost use Rattle.md_state.specs.Requests.{IsPending};
ghost use Rattle.md_array.specs.Consistency.{IsConsistent};
ghost use Rattle.md_array.specs.Steps.LowerOffset.{LowerHappens, LowersOffset};

use crate::mirror::Mirror;
use md_device::Device;

impl<D: Device + Drop> Mirror<D> {
    /// Data of the array are about to change from this sector on. A recovering member whose superblock says that it has that sector
    /// (recovery_offset of md_p.h, up to which a kernel asks no mark) surely has what is before it alone, and its superblock has to
    /// be stored before the data change. In memory alone: `record` stores it. What the member lacks stays as it is.
    pub fn lower_offset(&mut self, k: usize, sector: u64)
        requires within { k < length self.old.array.members }
        requires recovering { (m : MemberView) → IsMember self.old.array k m → is_recovering m.state ≡ true }
        requires running { self.old.array.halted ≡ false }
        requires sound { IsConsistent self.old }
        ensures gives { LowersOffset k sector self.old self.new }
        ensures event { LowerHappens k sector self.old self.new }
        ensures sound { IsConsistent self.new }
        ensures pending { (p : PendingView) → IsPending self.old.array p → IsPending self.new.array p }
    {
        self.array.lower_offset(k, sector);
    }
}
