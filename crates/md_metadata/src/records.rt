// Storing the superblocks that are due.
ghost use Rattle.std.specs.Prelude.{◌≡◌, ◌<◌, IfErr, MatchResult, length, true, false};
ghost use Rattle.md_kept_members.specs.View.{MemberView};
ghost use Rattle.md_assembly.specs.States.{is_recorded};
ghost use Rattle.md_state.specs.Members.{AllInSync, IsMember};
ghost use Rattle.md_state.specs.Steps.WriteMember.{IsNotDue};
ghost use Rattle.md_array.specs.Consistency.{IsConsistent};
ghost use Rattle.md_metadata.specs.Storing.{FailsInSync, IsRecording, RecordingFails, RecordsAll, RecordsAt, RecordsOn, StoresAll, StoringFails};

use crate::fault::PartFault;
use crate::sectors::store_sector;
use md_array::Mirror;
use md_device::Device;

/// Stores the superblock of member k, which is kept up to date. Of a member in sync the first sector of its
/// bitmap is to be stored right before. Takes no memory.
pub fn store_record<D: Device + Drop>(mirror: &mut Mirror<D>, k: usize) -> Result<(), PartFault>
    requires within { k < length mirror.old.array.members }
    requires sound { IsConsistent mirror.old }
    requires running { mirror.old.array.halted ≡ false }
    requires active { (m : MemberView) → IsMember mirror.old.array k m → is_recorded m.state ≡ true }
    ensures { MatchResult result (λ _. RecordsOn k mirror.old mirror.new) (RecordingFails k mirror.old mirror.new) }
{
    mirror.record(k)?;
    Ok(())
}

// Stores the superblock of member k, if it is kept up to date but not in sync, and its record is due.
fn store_other_record<D: Device + Drop>(mirror: &mut Mirror<D>, k: usize) -> Result<(), PartFault>
    requires within { k < length mirror.old.array.members }
    requires sound { IsConsistent mirror.old }
    requires running { mirror.old.array.halted ≡ false }
    requires recorded { AllInSync mirror.old.array IsNotDue }
    ensures { MatchResult result (λ _. RecordsAt k mirror.old mirror.new) (StoringFails IsRecording mirror.old mirror.new) }
{
    let state = mirror.state(k);
    if state.is_in_sync() || !state.is_recorded() || !mirror.due(k) {
        return Ok(());
    }
    store_record(mirror, k)
}

/// Stores the superblock of each member in sync of which it is due, by index, and right before it the first
/// sector of its bitmap. Takes no memory.
pub fn store_records<D: Device + Drop>(mirror: &mut Mirror<D>) -> Result<(), PartFault>
    requires sound { IsConsistent mirror.old }
    requires running { mirror.old.array.halted ≡ false }
    ensures gives { MatchResult result (λ _. StoresAll IsRecording IsNotDue mirror.old mirror.new) (StoringFails IsRecording mirror.old mirror.new) }
    ensures in_sync { IfErr result (FailsInSync mirror.old.array) }
{
    for k in 0..mirror.members() {
        if !mirror.state(k).is_in_sync() || !mirror.due(k) {
            continue;
        }
        store_sector(mirror, k, 0)?;
        mirror.record(k)?;
    }
    Ok(())
}

/// Stores the superblock of each spare and of each recovering member of which it is due, by index, once those
/// of the members in sync are stored. Takes no memory.
pub fn store_other_records<D: Device + Drop>(mirror: &mut Mirror<D>) -> Result<(), PartFault>
    requires sound { IsConsistent mirror.old }
    requires running { mirror.old.array.halted ≡ false }
    requires recorded { AllInSync mirror.old.array IsNotDue }
    ensures { MatchResult result (λ _. RecordsAll mirror.old mirror.new) (StoringFails IsRecording mirror.old mirror.new) }
{
    for k in 0..mirror.members() {
        store_other_record(mirror, k)?;
    }
    Ok(())
}
