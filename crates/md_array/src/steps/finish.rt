// Finishing a request.
ghost use Rattle.std.specs.Prelude.{◌≡◌, ◌≢◌, IfErr, MatchResult, OnOk};
ghost use Rattle.md_inflight.specs.Requests.Pending.{PendingView};
ghost use Rattle.md_state.specs.Steps.Finish.{Finishes, RefusesFinish};
ghost use Rattle.md_state.specs.Requests.{IsPending};
ghost use Rattle.md_array.specs.Consistency.{IsConsistent};
ghost use Rattle.md_array.specs.Events.{FinishHappens};

use crate::mirror::Mirror;
use md_device::Device;
use md_faults::FinishFault;
use md_inflight::Pending;

impl<D: Device + Drop> Mirror<D> {
    /// Takes a request that every member in sync has out of those in flight, or gives it back with the
    /// first fault in the order of `FinishFault`. Takes no memory.
    pub fn finish<'a>(&mut self, pending: Pending<'a>) -> Result<(), (Pending<'a>, FinishFault)>
        requires sound { IsConsistent self.old }
        requires pending { IsPending self.old.array pending }
        ensures gives { MatchResult result (λ _. Finishes self.old self.new pending.entry) (λ e. (e.0 ≡ pending.entry) × RefusesFinish self.old self.new pending.entry e.1) }
        ensures event { OnOk result (FinishHappens self.old self.new pending.entry) }
        ensures sound { IsConsistent self.new }
        ensures back { IfErr result (λ e. IsPending self.new.array e.0) }
        ensures pending { (other : PendingView) → other.ticket.number ≢ pending.entry.ticket.number → IsPending self.old.array other → IsPending self.new.array other }
    {
        self.array.finish(pending)
    }
}
