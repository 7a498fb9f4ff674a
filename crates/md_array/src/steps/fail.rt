// Failing a member by a call.
ghost use Rattle.std.specs.Prelude.{◌<◌, MatchResult, length};
ghost use Rattle.md_inflight.specs.Requests.Pending.{PendingView};
ghost use Rattle.md_state.specs.Steps.Fail.{FailsMember, RefusesFail};
ghost use Rattle.md_state.specs.Requests.{IsPending};
ghost use Rattle.md_array.specs.Consistency.{IsConsistent};
ghost use Rattle.md_array.specs.Steps.Fail.{FailHappens};

use crate::mirror::Mirror;
use md_device::Device;
use md_faults::FailFault;

impl<D: Device + Drop> Mirror<D> {
    /// Makes member k faulty, in memory alone: the event count rises, and `record` stores the
    /// superblocks of the others later. The fault is the first in the order of `FailFault`. It takes no
    /// memory.
    ///
    /// That the member has failed stands in the superblocks of the others alone. Where the machine crashes
    /// before one of them is stored, the next opening may find it in sync.
    pub fn fail(&mut self, k: usize) -> Result<(), FailFault>
        requires within { k < length self.old.array.members }
        requires sound { IsConsistent self.old }
        ensures gives { MatchResult result (λ _. FailsMember k self.old self.new) (RefusesFail k self.old self.new) }
        ensures event { FailHappens k self.old self.new result }
        ensures sound { IsConsistent self.new }
        ensures pending { (p : PendingView) → IsPending self.old.array p → IsPending self.new.array p }
    {
        self.array.fail_member(k)
    }
}
