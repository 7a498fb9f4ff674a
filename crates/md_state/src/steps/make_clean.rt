// Making an active array clean.
ghost use Rattle.std.specs.Prelude.{◌≡◌, List, MatchResult};
ghost use Rattle.md_state.specs.Steps.MakeClean.{MakesClean, MayMakeClean, RefusesClean, first_number};
ghost use Rattle.md_state.specs.View.{Disk};

use crate::array::Array;
use md_faults::CleanFault;
use md_super::CLEAN_OFFSET;

impl Array {
    /// What `Mirror::make_clean` does, whatever its devices are: it uses none.
    pub fn make_clean(&mut self) -> Result<(), CleanFault>
        ensures { (disks : List Disk) → MatchResult result (λ _. MakesClean (record { disks = disks; array = self.old }) (record { disks = disks; array = self.new }))
            (RefusesClean (record { disks = disks; array = self.old }) (record { disks = disks; array = self.new })) }
    {
        self.check_clean()?;
        self.rise();
        self.shared.resync_offset = CLEAN_OFFSET;
        Ok(())
    }

    // Whether the array may become clean.
    fn check_clean(&self) -> Result<(), CleanFault>
        ensures { (disks : List Disk) → MatchResult result (λ _. MayMakeClean self.now)
            (RefusesClean (record { disks = disks; array = self.now }) (record { disks = disks; array = self.now })) }
    {
        if self.halted {
            return Err(CleanFault::Halted);
        }
        if let Some(number) = self.first_number() {
            return Err(CleanFault::InFlight(number));
        }
        if !self.resynced {
            return Err(CleanFault::NotResynced);
        }
        if self.shared.resync_offset == CLEAN_OFFSET {
            return Err(CleanFault::AlreadyClean);
        }
        if self.shared.events == u64::MAX {
            return Err(CleanFault::EventsFull);
        }
        Ok(())
    }

    // The number of the first request in flight, in order of entry, if there is one.
    fn first_number(&self) -> Option<u64>
        ensures { result ≡ first_number self.now }
    {
        let (number, _) = self.requests.iter().next()?;
        Some(number)
    }
}
