// A spare is admitted.
ghost use Rattle.std.specs.Prelude.{◌≡◌, ◌<◌, MatchResult, length, true};
ghost use Rattle.md_assembly.specs.States.{is_spare};
ghost use Rattle.md_kept_members.specs.View.{MemberView};
ghost use Rattle.md_inflight.specs.Requests.Pending.{PendingView};
ghost use Rattle.md_state.specs.Members.{IsMember};
ghost use Rattle.md_state.specs.Requests.{IsPending};
ghost use Rattle.md_array.specs.Steps.Admit.{AdmitHappens, Admits, RefusesAdmit};
ghost use Rattle.md_array.specs.Consistency.{IsConsistent};

use crate::mirror::Mirror;
use md_device::Device;
use md_faults::AdmitFault;
use md_kept_members::{admitted_superblock, store_fields_on};
use std::alloc::Global;

impl<D: Device + Drop> Mirror<D> {
    /// Member k, a spare, takes the least free role and is recovering from then on: its superblock is
    /// written, with RECOVERY_OFFSET in the feature map and the offset 0, before any other one tells of the
    /// role. So no crash leaves it in sync by the others. The event count rises, and `record` stores the
    /// superblocks of the others later. The fault is the first in the order of `AdmitFault`.
    pub fn admit(&mut self, alloc: Global, k: usize) -> Result<(), AdmitFault>
        requires within { k < length self.old.array.members }
        requires spare { (m : MemberView) → IsMember self.old.array k m → is_spare m.state ≡ true }
        requires sound { IsConsistent self.old }
        ensures gives { MatchResult result (λ _. Admits k self.old self.new) (RefusesAdmit k self.old self.new) }
        ensures event { AdmitHappens k self.old self.new result }
        ensures sound { IsConsistent self.new }
        ensures pending { (p : PendingView) → IsPending self.old.array p → IsPending self.new.array p }
    {
        let role = self.array.check_admit(k)?;
        let array = &self.array;
        let member = &array.members[k];
        let Ok(own) = admitted_superblock(alloc, member) else {
            return Err(AdmitFault::NoMemory);
        };
        let Ok(shared) = array.shared_with(alloc, own.dev_number, role) else {
            return Err(AdmitFault::NoMemory);
        };
        if store_fields_on(&mut self.devices, k, &shared, &own).is_err() {
            return Err(AdmitFault::TargetFault);
        }
        self.array.note_admitted(k, role, own, shared);
        Ok(())
    }
}
