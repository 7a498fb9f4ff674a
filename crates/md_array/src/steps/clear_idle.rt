// Clearing a mark in memory.
ghost use Rattle.std.specs.Prelude.{◌<◌, MatchResult};
ghost use Rattle.std.specs.Int.{div_ceil};
ghost use Rattle.md_inflight.specs.Requests.Pending.{PendingView};
ghost use Rattle.md_state.specs.Steps.ClearIdle.{Clears, RefusesClear};
ghost use Rattle.md_state.specs.Requests.{IsPending};
ghost use Rattle.md_array.specs.Consistency.{IsConsistent};
ghost use Rattle.md_array.specs.Events.{ClearHappens};

use crate::mirror::Mirror;
use md_device::Device;
use md_faults::ClearFault;

impl<D: Device + Drop> Mirror<D> {
    /// Takes a chunk's mark away, in memory alone: `store_marks` stores that later. The fault is the
    /// first in the order of `ClearFault`. It takes no memory.
    pub fn clear_idle(&mut self, chunk: u32) -> Result<(), ClearFault>
        requires within { chunk < div_ceil self.old.array.chunks.size self.old.array.chunks.sectors }
        requires sound { IsConsistent self.old }
        ensures gives { MatchResult result (λ _. Clears chunk self.old self.new) (RefusesClear chunk self.old self.new) }
        ensures event { ClearHappens chunk self.old self.new result }
        ensures sound { IsConsistent self.new }
        ensures pending { (p : PendingView) → IsPending self.old.array p → IsPending self.new.array p }
    {
        self.array.clear_idle(chunk)
    }
}
