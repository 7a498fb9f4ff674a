// Taking a device back that left.
ghost use Rattle.std.specs.Prelude.{◌≡◌, ◌≤◌, MatchResult};
ghost use Rattle.md_members.specs.Members.{sectors_of_device};
ghost use Rattle.md_kept_members.specs.Remembering.{IsWhole};
ghost use Rattle.md_inflight.specs.Requests.Pending.{PendingView};
ghost use Rattle.md_state.specs.Steps.ReAdd.{MayReAdd};
ghost use Rattle.md_state.specs.Requests.{IsPending};
ghost use Rattle.md_state.specs.View.{disk_of};
ghost use Rattle.md_array.specs.Consistency.{IsConsistent};
ghost use Rattle.md_array.specs.Steps.ReAdd.{ReAddHappens, ReAdds, RecordsLast, RefusesReAdd, RefusesToRecordLast, unread_as};

use crate::mirror::Mirror;
use md_device::Device;
use md_faults::ReAddFault;
use md_kept_members::{store_superblock, taken_back};
use md_members::{MemberFault, MemberInfo, read_member};
use std::alloc::Global;

impl<D: Device + Drop> Mirror<D> {
    /// Takes a device back that left this array, as a member that is recovering in its own former role: the
    /// event count rises, and its superblock is written, with RECOVERY_OFFSET in the feature map and the
    /// recovery_offset 0, which a checkpoint raises. Its index is that of the last member. The fault is the first in the order of `ReAddFault`, but that memory is
    /// taken before the write. The device is given back with it, unwritten unless the fault is `WriteFault`.
    ///
    /// `missing` then names the marked chunks alone, or every chunk where the device may have been used elsewhere
    /// since it left. In the first case it has all others if it is as its failure left it and some role had no
    /// member in sync at each moment since. The second case is that of a device
    ///
    /// - whose bitmap is not accepted, or marks a chunk that the array does not;
    /// - whose marks were last cleared at a later event count than the array's;
    /// - whose superblock has a member that is in sync here in another role, or in none: it was used without it;
    /// - that the array's superblock has in a role, more than one event ahead of it: it is an older copy;
    /// - after which another one came in by the array's superblock, which has a role, or has failed: it may have been
    ///   rebuilt in the role of this one.
    pub fn re_add(&mut self, alloc: Global, device: D) -> Result<usize, (D, ReAddFault)>
        requires sound { IsConsistent self.old }
        ensures gives { MatchResult result (λ k. ReAdds k (disk_of D.Device device) self.old self.new)
            (λ e. RefusesReAdd (disk_of D.Device device) (disk_of D.Device e.0) self.old self.new e.1) }
        ensures event { ReAddHappens (disk_of D.Device device) self.old self.new result }
        ensures sound { IsConsistent self.new }
        ensures pending { (p : PendingView) → IsPending self.old.array p → IsPending self.new.array p }
    {
        if self.array.halted {
            return Err((device, ReAddFault::Halted));
        }
        let mut device = device;
        let info = match read_member(alloc, &mut device) {
            Ok(info) => info,
            Err(fault) => return Err((device, refusal(fault))),
        };
        if let Err(fault) = self.array.check_re_add(&info) {
            return Err((device, fault));
        }
        self.take_back(alloc, device, info)
    }

    // The device was read as this, and may be taken back.
    fn take_back(
        &mut self,
        alloc: Global,
        device: D,
        info: MemberInfo,
    ) -> Result<usize, (D, ReAddFault)>
        requires sound { IsConsistent self.old }
        requires whole { IsWhole info }
        requires may { MayReAdd self.old.array info }
        requires long { 16 ≤ sectors_of_device (D.content device) }
        ensures { MatchResult result (λ k. RecordsLast k (disk_of D.Device device) info self.old self.new)
            (λ e. RefusesToRecordLast (disk_of D.Device device) (disk_of D.Device e.0) info self.old self.new e.1) }
    {
        // For the proof: a device has at most 2^54 sectors.
        let _sectors = device.sectors();
        let number = info.superblock.dev_number;
        let role = info.superblock.role_of(number);
        let full = !self.array.is_degraded();
        let offset = self.array.offset_back(&info);
        let Ok(shared) = self.array.shared_with(alloc, number, role) else {
            return Err((device, ReAddFault::NoMemory));
        };
        if self.array.members.reserve(1).is_err() {
            return Err((device, ReAddFault::NoMemory));
        }
        if self.devices.reserve(1).is_err() {
            return Err((device, ReAddFault::NoMemory));
        }
        let member = taken_back(info, offset);
        let mut device = device;
        if store_superblock(&mut device, &shared, &member).is_err() {
            return Err((device, ReAddFault::WriteFault));
        }
        self.array.members.push_reserved(member);
        self.array.note_joined(shared, full);
        self.devices.push_reserved(device);
        Ok(self.devices.len() - 1)
    }
}

// The answer where a device is not read as a member.
fn refusal(fault: MemberFault) -> ReAddFault
    ensures { result ≡ unread_as fault }
{
    match fault {
        MemberFault::NoMemory => ReAddFault::NoMemory,
        _ => ReAddFault::Member(fault),
    }
}
