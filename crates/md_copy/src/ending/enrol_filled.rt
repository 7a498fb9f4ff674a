// The target comes into sync once it has its chunks.
ghost use Rattle.std.specs.Prelude.{◌≡◌, ◌^◌, ◌<◌, IfErr, MatchResult, false, length};
ghost use Rattle.md_kept_members.specs.View.{MemberView};
ghost use Rattle.md_state.specs.Members.{IsMember};
ghost use Rattle.md_state.specs.Steps.Rise.{HasSpentEvents};
ghost use Rattle.md_array.specs.Consistency.{IsConsistent};
ghost use Rattle.md_array.specs.Steps.Enrol.{EnrolsChunks, MayEnrol};
ghost use Rattle.md_copy.specs.Ending.Enrolled.{AreNoOrphans, EnrolsCopied, FailsCopied, RefusesFilledTarget};
ghost use Rattle.md_copy.specs.Passes.Held.{AreHeld};
ghost use Rattle.md_copy.specs.Ending.Leaving.{MayRecordAtEnd};
ghost use Rattle.md_copy.specs.Readying.Ready.{IsReadyToCopy};

use crate::beginning::{RebuildFault, keep_missing, marks_of, uncopied_chunks};
use crate::ending::orphans::Orphans;
use crate::rebuilt::Rebuilt;
use md_array::{EnrolFault, Mirror};
use md_bitmap::Marks;
use md_cert::Planned;
use md_device::Device;
use std::alloc::Global;

/// The target comes into sync with the chunks that were copied, and lists the others that it lacks. What is told
/// of it is answered. `copied` keeps the chunks that the target lacked still. Only the target's new list and
/// superblocks take memory.
pub(crate) fn enrol_copied<D: Device + Drop>(
    alloc: Global,
    mirror: &mut Mirror<D>,
    target: usize,
    plans: Vec<Planned>,
    copied: &mut Marks,
    orphans: Orphans,
) -> Result<Rebuilt, RebuildFault>
    requires within { target < length mirror.old.array.members }
    requires ready { IsReadyToCopy target mirror.old }
    requires held { AreHeld mirror.old target copied.old }
    requires few { length plans.items < 2 ^ 32 }
    requires room { AreNoOrphans copied.old.chunks orphans }
    ensures gives { MatchResult result (EnrolsCopied target plans.items copied.old mirror.old mirror.new)
        (FailsCopied target copied.old copied.new mirror.old mirror.new) }
    ensures leaves { IfErr result (MayRecordAtEnd target copied.new mirror.new) }
    ensures sound { IsConsistent mirror.new }
{
    let Orphans { marks, chunks } = orphans;
    let chunks = uncopied_chunks(chunks, mirror, target, copied);
    let orphans = marks_of(marks, chunks.as_slice());
    keep_missing(mirror, target, copied);
    enrol_filled(alloc, mirror, target, copied, &orphans)?;
    Ok(Rebuilt {
        passes: plans.len() as u32,
        plans,
        orphans: chunks,
    })
}

// The target comes into sync.
fn enrol_filled<D: Device + Drop>(
    alloc: Global,
    mirror: &mut Mirror<D>,
    target: usize,
    copied: &Marks,
    orphans: &Marks,
) -> Result<(), RebuildFault>
    requires sound { IsConsistent mirror.old }
    requires running { mirror.old.array.halted ≡ false }
    requires unspent { HasSpentEvents mirror.old.array → ⊥ }
    requires may { MayEnrol target copied.now orphans.now mirror.old }
    ensures gives { MatchResult result (λ _. EnrolsChunks target copied.now orphans.now mirror.old mirror.new)
        (RefusesFilledTarget target copied.now orphans.now mirror.old mirror.new) }
    ensures sound { IsConsistent mirror.new }
{
    match mirror.enrol(alloc, target, copied, orphans) {
        Ok(()) => Ok(()),
        Err(EnrolFault::LogFull(k)) => Err(RebuildFault::LogFull(k)),
        Err(EnrolFault::NoMemory) => Err(RebuildFault::NoMemory),
        Err(EnrolFault::TargetFault) => Err(RebuildFault::TargetFault),
        // The mirror runs, and the count can rise.
        Err(EnrolFault::Halted) => unreachable!(),
        Err(EnrolFault::EventsFull) => unreachable!(),
    }
}
