// Writing a request's bytes to a member.
ghost use Rattle.std.specs.Prelude.{◌<◌, MatchResult, length};
ghost use Rattle.md_inflight.specs.Requests.Pending.{PendingView};
ghost use Rattle.md_state.specs.Requests.{IsPending};
ghost use Rattle.md_state.specs.Steps.WriteMember.{RefusesWriteMember, WritesTo};
ghost use Rattle.md_array.specs.Consistency.{IsConsistent};
ghost use Rattle.md_array.specs.Events.{WriteMemberHappens};

use crate::mirror::Mirror;
use md_device::Device;
use md_faults::WriteMemberFault;
use md_inflight::Pending;
use md_state::put_on;

impl<D: Device + Drop> Mirror<D> {
    /// Writes a request's bytes to member k. The fault is the first in the order of
    /// `WriteMemberFault`. Takes no memory.
    pub fn write_member(
        &mut self,
        pending: &mut Pending<'_>,
        k: usize,
    ) -> Result<(), WriteMemberFault>
        requires within { k < length self.old.array.members }
        requires sound { IsConsistent self.old }
        requires pending { IsPending self.old.array pending.old }
        ensures gives { MatchResult result (λ _. WritesTo k self.old self.new pending.old pending.new) (RefusesWriteMember k self.old self.new pending.old pending.new) }
        ensures event { WriteMemberHappens k self.old self.new pending.old pending.new result }
        ensures sound { IsConsistent self.new }
        ensures still { IsPending self.new.array pending.new }
        ensures pending { (other : PendingView) → IsPending self.old.array other → IsPending self.new.array other }
    {
        self.array.check_write(pending, k)?;
        let own = self.own(k);
        let number = own.dev_number;
        let start = own.data_offset;
        if put_on(
            &mut self.devices,
            k,
            start,
            pending.sector(),
            pending.bytes(),
        )
        .is_err()
        {
            return Err(self.array.write_failed(k));
        }
        self.array.note_written(pending, number);
        Ok(())
    }
}
