// Adding a new device as a spare.
ghost use Rattle.std.specs.Prelude.{◌≡◌, IfOk, MatchResult};
ghost use Rattle.md_members.specs.Members.{sectors_of_device};
ghost use Rattle.md_inflight.specs.Requests.Pending.{PendingView};
ghost use Rattle.md_kept_members.specs.Membership.Joining.{joined_shared};
ghost use Rattle.md_kept_members.specs.Membership.Numbers.{spare_role};
ghost use Rattle.md_state.specs.Steps.Add.{IsSpareOf, MayAdd};
ghost use Rattle.md_state.specs.Requests.{IsPending};
ghost use Rattle.md_state.specs.View.{disk_of};
ghost use Rattle.md_array.specs.Steps.Add.{AddHappens, Adds, LaysOutLast, RefusesAdd, RefusesToLayOut};
ghost use Rattle.md_array.specs.Consistency.{IsConsistent};

use crate::mirror::Mirror;
use md_create::{NewMember, lay_out};
use md_device::Device;
use md_faults::AddFault;
use md_kept_members::kept_spare;
use md_super::{SPARE, Superblock};
use std::alloc::{AllocError, Global};

impl<D: Device + Drop> Mirror<D> {
    /// Adds a new device as a spare: it is laid out with a number of its own, with all chunks marked, and
    /// what was on it in sectors 8 to 2039 is lost. The event count rises, and `record` stores the
    /// superblocks of the others later. Its index is that of the last member. The fault is the first in the
    /// order of `AddFault`, and the device is given back with it, unwritten unless the fault is
    /// `WriteFault`.
    pub fn add(&mut self, alloc: Global, device: D) -> Result<usize, (D, AddFault)>
        requires sound { IsConsistent self.old }
        ensures gives { MatchResult result (λ k. Adds k (disk_of D.Device device) self.old self.new)
            (λ e. RefusesAdd (disk_of D.Device device) (disk_of D.Device e.0) self.old self.new e.1) }
        ensures event { AddHappens (disk_of D.Device device) self.old self.new result }
        ensures sound { IsConsistent self.new }
        ensures pending { (p : PendingView) → IsPending self.old.array p → IsPending self.new.array p }
    {
        let number = match self.array.check_add(device.sectors()) {
            Ok(number) => number,
            Err(fault) => return Err((device, fault)),
        };
        self.lay_out_last(alloc, device, number)
    }

    // The device may come in with this number. All memory is taken before it is written.
    fn lay_out_last(
        &mut self,
        alloc: Global,
        device: D,
        number: u32,
    ) -> Result<usize, (D, AddFault)>
        requires sound { IsConsistent self.old }
        requires may { MayAdd self.old.array (sectors_of_device (D.content device)) number }
        ensures { MatchResult result (λ k. LaysOutLast k (disk_of D.Device device) number self.old self.new)
            (λ e. RefusesToLayOut (disk_of D.Device device) (disk_of D.Device e.0) number self.old self.new e.1) }
    {
        let full = !self.array.is_degraded();
        let Ok((shared, spare)) = self.spare_for(alloc, number, device.sectors()) else {
            return Err((device, AddFault::NoMemory));
        };
        if self.array.members.reserve(1).is_err() {
            return Err((device, AddFault::NoMemory));
        }
        if self.devices.reserve(1).is_err() {
            return Err((device, AddFault::NoMemory));
        }
        let mut device = device;
        if lay_out(&mut device, &spare).is_err() {
            return Err((device, AddFault::WriteFault));
        }
        let NewMember {
            superblock,
            header,
            marks,
            ..
        } = spare;
        let member = kept_spare(alloc, superblock, header, marks);
        self.array.members.push_reserved(member);
        self.array.note_joined(shared, full);
        self.devices.push_reserved(device);
        Ok(self.devices.len() - 1)
    }

    // The array's fields once a device of so many sectors has come in, and what the device is laid out with.
    fn spare_for(
        &self,
        alloc: Global,
        number: u32,
        sectors: u64,
    ) -> Result<(Superblock, NewMember), AllocError>
        requires sound { IsConsistent self.now }
        requires may { MayAdd self.now.array sectors number }
        ensures { IfOk result (λ made. (made.0 ≡ joined_shared self.now.array.shared self.now.array.members number spare_role) × IsSpareOf self.now.array number sectors made.1) }
    {
        let shared = self.array.shared_with(alloc, number, SPARE)?;
        let spare = self.array.new_spare(alloc, &shared, number, sectors)?;
        Ok((shared, spare))
    }
}
