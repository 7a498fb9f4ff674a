// Writing a request's bytes to the members.
ghost use Rattle.std.specs.Prelude.{◌≡◌, MatchResult, false};
ghost use Rattle.md_state.specs.Members.{AllInSync};
ghost use Rattle.md_state.specs.Requests.{IsPending};
ghost use Rattle.md_state.specs.Steps.WriteMember.{HasRequestMarks, IsNotDue};
ghost use Rattle.md_array.specs.Consistency.{IsConsistent};
ghost use Rattle.md_write.specs.Progress.{AllUnsaid, Part, WritingFails, WritesToAll};

use md_array::{Mirror, Pending, WriteMemberFault};
use md_device::Device;
use md_metadata::PartFault;

/// Writes the bytes to each member in sync that lacks them.
pub(crate) fn write_to_members<D: Device + Drop>(
    mirror: &mut Mirror<D>,
    pending: &mut Pending<'_>,
) -> Result<(), PartFault>
    requires sound { IsConsistent mirror.old }
    requires pending { IsPending mirror.old.array pending.old }
    requires running { mirror.old.array.halted ≡ false }
    requires marked { AllInSync mirror.old.array (HasRequestMarks mirror.old.array pending.old) }
    requires recorded { AllInSync mirror.old.array IsNotDue }
    requires unsaid { AllUnsaid mirror.old.array pending.old }
    ensures { MatchResult result (λ _. WritesToAll pending.old pending.new mirror.old mirror.new) (WritingFails Part.Bytes pending.old pending.new mirror.old mirror.new) }
{
    for k in 0..mirror.members() {
        if !mirror.state(k).is_in_sync() {
            continue;
        }
        match mirror.write_member(pending, k) {
            Ok(()) => {}
            Err(WriteMemberFault::AlreadyWritten) => {}
            Err(WriteMemberFault::MemberFailed(j)) => return Err(PartFault::MemberFailed(j)),
            Err(WriteMemberFault::Halted) => return Err(PartFault::Halted),
            // The member is in sync, the marks and records are stored, and no superblock says that a recovering member has the sectors.
            Err(WriteMemberFault::NotActive)
            | Err(WriteMemberFault::NotMarked(_))
            | Err(WriteMemberFault::NotRecorded(_)) => unreachable!(),
        }
    }
    Ok(())
}
