// Removing a member.
ghost use Rattle.std.specs.Prelude.{◌<◌, MatchResult, length};
ghost use Rattle.md_inflight.specs.Requests.Pending.{PendingView};
ghost use Rattle.md_state.specs.Steps.Remove.{RefusesRemove, Removes};
ghost use Rattle.md_state.specs.Requests.{IsPending};
ghost use Rattle.md_state.specs.View.{disk_of};
ghost use Rattle.md_array.specs.Consistency.{IsConsistent};
ghost use Rattle.md_array.specs.Steps.Remove.{RemoveHappens};

use crate::mirror::Mirror;
use md_device::Device;
use md_faults::RemoveFault;

impl<D: Device + Drop> Mirror<D> {
    /// Takes member k out of the array and hands its device back, unwritten. Later members move down by
    /// one. Where it is a spare the event count rises, and `record` stores the superblocks of the others
    /// later. The fault is the first in the order of `RemoveFault`. It takes no memory.
    pub fn remove(&mut self, k: usize) -> Result<D, RemoveFault>
        requires within { k < length self.old.array.members }
        requires sound { IsConsistent self.old }
        ensures gives { MatchResult result (λ d. Removes k (disk_of D.Device d) self.old self.new) (RefusesRemove k self.old self.new) }
        ensures event { RemoveHappens k self.old self.new result }
        ensures sound { IsConsistent self.new }
        ensures pending { (p : PendingView) → IsPending self.old.array p → IsPending self.new.array p }
    {
        self.array.remove_member(k)?;
        Ok(self.devices.remove(k))
    }
}
