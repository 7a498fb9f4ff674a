// Storing the list of a member.
ghost use Rattle.std.specs.Prelude.{◌≡◌, ◌<◌, ℕ, MatchResult, length, true, false};
ghost use Rattle.md_assembly.specs.States.{is_in_sync};
ghost use Rattle.md_kept_members.specs.Enrolling.{HasRoomFor};
ghost use Rattle.md_kept_members.specs.View.{MemberView};
ghost use Rattle.md_state.specs.Members.{IsInSync, IsMember};
ghost use Rattle.md_state.specs.Steps.WriteMember.{IsNotDue};
ghost use Rattle.md_array.specs.Consistency.{IsConsistent};
ghost use Rattle.md_metadata.specs.StoringLists.{ListFails, LogsOn, StoresList};

use crate::fault::PartFault;
use crate::records::store_record;
use crate::sectors::store_sector;
use md_array::{Mirror, StoreFault};
use md_device::Device;

/// Stores the list of member k, which is in sync: its log, where its superblock names one, then the first sector
/// of its bitmap and its superblock. Those of the members in sync before it are stored. Takes no memory.
pub fn store_list<D: Device + Drop>(mirror: &mut Mirror<D>, k: usize) -> Result<(), PartFault>
    requires within { k < length mirror.old.array.members }
    requires sound { IsConsistent mirror.old }
    requires running { mirror.old.array.halted ≡ false }
    requires in_sync { (m : MemberView) → IsMember mirror.old.array k m → is_in_sync m.state ≡ true }
    requires room { (m : MemberView) → IsMember mirror.old.array k m → HasRoomFor m.superblock m.bad }
    requires earlier { (j : ℕ) (m : MemberView) → j < k → IsInSync mirror.old.array j m → IsNotDue m }
    ensures { MatchResult result (λ _. StoresList k mirror.old mirror.new) (ListFails k mirror.old mirror.new) }
{
    store_member_log(mirror, k)?;
    store_sector(mirror, k, 0)?;
    store_record(mirror, k)
}

// Stores the log of member k.
fn store_member_log<D: Device + Drop>(mirror: &mut Mirror<D>, k: usize) -> Result<(), PartFault>
    requires within { k < length mirror.old.array.members }
    requires sound { IsConsistent mirror.old }
    requires running { mirror.old.array.halted ≡ false }
    requires in_sync { (m : MemberView) → IsMember mirror.old.array k m → is_in_sync m.state ≡ true }
    requires room { (m : MemberView) → IsMember mirror.old.array k m → HasRoomFor m.superblock m.bad }
    ensures { MatchResult result (λ _. LogsOn k mirror.old mirror.new) (ListFails k mirror.old mirror.new) }
{
    match mirror.store_log(k) {
        Ok(()) => Ok(()),
        Err(StoreFault::MemberFailed(j)) => Err(PartFault::MemberFailed(j)),
        Err(StoreFault::Halted) => Err(PartFault::Halted),
        // It can't be: the member is in sync.
        Err(StoreFault::NotActive) => Err(PartFault::Halted),
    }
}
