// Clearing a mark in memory.
ghost use Rattle.std.specs.Prelude.{◌<◌, List, MatchResult};
ghost use Rattle.std.specs.Int.{div_ceil};
ghost use Rattle.md_state.specs.Steps.ClearIdle.{Clears, MayClear, RefusesClear};
ghost use Rattle.md_state.specs.View.{Disk};

use crate::array::Array;
use md_faults::ClearFault;

impl Array {
    /// What `Mirror::clear_idle` does, whatever its devices are: it uses none.
    pub fn clear_idle(&mut self, chunk: u32) -> Result<(), ClearFault>
        requires within { chunk < div_ceil self.old.chunks.size self.old.chunks.sectors }
        requires marks { chunk < self.old.marks.chunks }
        ensures { (disks : List Disk) → MatchResult result (λ _. Clears chunk (record { disks = disks; array = self.old }) (record { disks = disks; array = self.new }))
            (RefusesClear chunk (record { disks = disks; array = self.old }) (record { disks = disks; array = self.new })) }
    {
        self.check_clear(chunk)?;
        self.marks.unmark(chunk);
        Ok(())
    }

    // Whether the mark may go.
    fn check_clear(&self, chunk: u32) -> Result<(), ClearFault>
        requires within { chunk < div_ceil self.now.chunks.size self.now.chunks.sectors }
        requires marks { chunk < self.now.marks.chunks }
        ensures { (disks : List Disk) → MatchResult result (λ _. MayClear chunk self.now)
            (RefusesClear chunk (record { disks = disks; array = self.now }) (record { disks = disks; array = self.now })) }
    {
        if self.halted {
            return Err(ClearFault::Halted);
        }
        if !self.resynced {
            return Err(ClearFault::NotResynced);
        }
        if self.is_degraded() {
            return Err(ClearFault::Degraded);
        }
        let (start, sectors) = self.chunks.range(chunk);
        if let Some(number) = self.requests.any_meeting(start, sectors) {
            return Err(ClearFault::Busy(number));
        }
        if !self.marks.is_marked(chunk) {
            return Err(ClearFault::NotMarked);
        }
        Ok(())
    }
}
