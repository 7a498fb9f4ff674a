// Beginning a request.
ghost use Rattle.std.specs.Prelude.{◌≡◌, ◌+◌, ◌/◌, ◌%◌, IfOk, MatchResult, length};
ghost use Rattle.md_inflight.specs.Requests.Pending.{PendingView};
ghost use Rattle.md_state.specs.Steps.Begin.{Begins, RefusesBegin};
ghost use Rattle.md_state.specs.Requests.{IsPending};
ghost use Rattle.md_array.specs.Consistency.{IsConsistent};
ghost use Rattle.md_array.specs.Events.{BeginHappens};

use crate::mirror::Mirror;
use md_device::Device;
use md_faults::BeginFault;
use md_inflight::Pending;

impl<D: Device + Drop> Mirror<D> {
    /// Begins a request to write `bytes` from this sector of the array on: enters it in the list of
    /// those in flight, and marks its chunks in memory. The fault is the first in the order of
    /// `BeginFault`.
    pub fn begin<'a>(&mut self, sector: u64, bytes: &'a [u8]) -> Result<Pending<'a>, BeginFault>
        requires whole { length bytes.now % 512 ≡ 0 }
        requires sound { IsConsistent self.old }
        ensures gives { MatchResult result (λ p. Begins sector bytes.now self.old self.new p) (RefusesBegin sector (length bytes.now / 512) self.old self.new) }
        ensures event { IfOk result (BeginHappens self.old self.new) }
        ensures sound { IsConsistent self.new }
        ensures begun { IfOk result (IsPending self.new.array) }
        ensures pending { (other : PendingView) → IsPending self.old.array other → IsPending self.new.array other }
    {
        self.array.begin(sector, bytes)
    }
}
