// Making an active array clean.
ghost use Rattle.std.specs.Prelude.{MatchResult};
ghost use Rattle.md_inflight.specs.Requests.Pending.{PendingView};
ghost use Rattle.md_state.specs.Steps.MakeClean.{MakesClean, RefusesClean};
ghost use Rattle.md_state.specs.Requests.{IsPending};
ghost use Rattle.md_array.specs.Consistency.{IsConsistent};
ghost use Rattle.md_array.specs.Events.{CleanHappens};

use crate::mirror::Mirror;
use md_device::Device;
use md_faults::CleanFault;

impl<D: Device + Drop> Mirror<D> {
    /// Makes an active array clean, in memory alone: the event count rises, and `record` stores each
    /// superblock later. The fault is the first in the order of `CleanFault`. It takes no memory.
    pub fn make_clean(&mut self) -> Result<(), CleanFault>
        requires sound { IsConsistent self.old }
        ensures gives { MatchResult result (λ _. MakesClean self.old self.new) (RefusesClean self.old self.new) }
        ensures event { CleanHappens self.old self.new result }
        ensures sound { IsConsistent self.new }
        ensures pending { (p : PendingView) → IsPending self.old.array p → IsPending self.new.array p }
    {
        self.array.make_clean()
    }
}
