// Recovering members say no more that they have what is about to be copied.
ghost use Rattle.std.specs.Prelude.{◌≡◌, ℕ, MatchResult, false};
ghost use Rattle.md_kept_members.specs.View.{MemberView};
ghost use Rattle.md_state.specs.Members.{IsMember};
ghost use Rattle.md_state.specs.Steps.MakeClean.{IsIdle};
ghost use Rattle.md_array.specs.Consistency.{IsConsistent};
ghost use Rattle.md_metadata.specs.Storing.{IsRecording, StoringFails};
ghost use Rattle.md_resync.specs.Telling.{IsRecoveringRecorded, StoresLowered, TellingFails, Tells};

use crate::fault::ResyncFault;
use md_array::Mirror;
use md_device::Device;
use md_metadata::{PartFault, lower_offsets, store_other_records, store_records};

/// Marked chunks are about to be copied. No recovering member's superblock is to say any more that the member has one of them, or
/// what lies behind the first: a kernel writes to such a member too, so that after a crash it may hold a third content there, and
/// it goes on from that offset. Where one is due then, all that is due is stored. Takes no memory.
pub(crate) fn tell_recovering<D: Device + Drop>(mirror: &mut Mirror<D>) -> Result<(), ResyncFault>
    requires sound { IsConsistent mirror.old }
    requires idle { IsIdle mirror.old.array }
    ensures gives { MatchResult result (λ _. Tells mirror.old mirror.new) (TellingFails mirror.old mirror.new) }
    ensures sound { IsConsistent mirror.new }
{
    let Some(chunk) = mirror.marks().next_marked(0) else {
        return Ok(());
    };
    let sectors = mirror.chunks().sectors;
    lower_offsets(mirror, u64::from(chunk) * u64::from(sectors));
    match store_lowered(mirror) {
        Ok(()) => Ok(()),
        Err(PartFault::Halted) => Err(ResyncFault::Halted),
        Err(PartFault::MemberFailed(k)) => Err(ResyncFault::MemberFailed(k)),
    }
}

// Stores what is due, if the superblock of a recovering member is: those of members in sync come first.
fn store_lowered<D: Device + Drop>(mirror: &mut Mirror<D>) -> Result<(), PartFault>
    requires sound { IsConsistent mirror.old }
    requires running { mirror.old.array.halted ≡ false }
    ensures { MatchResult result (λ _. StoresLowered mirror.old mirror.new) (StoringFails IsRecording mirror.old mirror.new) }
{
    if !is_recovering_due(mirror) {
        return Ok(());
    }
    store_records(mirror)?;
    store_other_records(mirror)
}

// Whether the superblock of a recovering member is due.
fn is_recovering_due<D: Device + Drop>(mirror: &Mirror<D>) -> bool
    ensures { result ≡ false → (k : ℕ) (m : MemberView) → IsMember mirror.now.array k m → IsRecoveringRecorded m }
{
    for k in 0..mirror.members() {
        if mirror.state(k).is_recovering() && mirror.due(k) {
            return true;
        }
    }
    false
}
