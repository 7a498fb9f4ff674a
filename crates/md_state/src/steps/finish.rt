// Finishing a request.
ghost use Rattle.std.specs.Prelude.{◌≡◌, List, MatchResult};
ghost use Rattle.md_inflight.specs.Inflight.{BelongsTo};
ghost use Rattle.md_state.specs.Steps.Finish.{Finishes, MayFinish, RefusesFinish};
ghost use Rattle.md_state.specs.View.{Disk};

use crate::array::Array;
use md_faults::FinishFault;
use md_inflight::{Pending, ticket_of};

impl Array {
    /// What `Mirror::finish` does, whatever its devices are: it uses none.
    pub fn finish<'a>(&mut self, pending: Pending<'a>) -> Result<(), (Pending<'a>, FinishFault)>
        requires { BelongsTo self.old.requests pending.ticket }
        ensures { (disks : List Disk) → MatchResult result (λ _. Finishes (record { disks = disks; array = self.old }) (record { disks = disks; array = self.new }) pending.entry)
            (λ e. (e.0 ≡ pending.entry) × RefusesFinish (record { disks = disks; array = self.old }) (record { disks = disks; array = self.new }) pending.entry e.1) }
    {
        if let Err(fault) = self.check_finish(&pending) {
            return Err((pending, fault));
        }
        self.requests.remove(ticket_of(pending));
        Ok(())
    }

    // Whether the request may go.
    fn check_finish(&self, pending: &Pending<'_>) -> Result<(), FinishFault>
        ensures { (disks : List Disk) → MatchResult result (λ _. MayFinish self.now pending.now)
            (RefusesFinish (record { disks = disks; array = self.now }) (record { disks = disks; array = self.now }) pending.now) }
    {
        if self.halted {
            return Err(FinishFault::Halted);
        }
        if let Some(k) = self.first_unwritten(pending) {
            return Err(FinishFault::Unwritten(k));
        }
        if let Some(k) = self.first_due() {
            return Err(FinishFault::MustRecord(k));
        }
        Ok(())
    }
}
