// Writing to the array.
ghost use Rattle.std.specs.Prelude.{◌≡◌, ◌%◌, MatchResult, length, false};
ghost use Rattle.md_inflight.specs.Requests.Pending.{PendingView};
ghost use Rattle.md_state.specs.Requests.{IsPending};
ghost use Rattle.md_array.specs.Consistency.{IsConsistent};
ghost use Rattle.md_write.specs.Progress.{AreChunksOf, IsReadyToFinish, Part, WritingFails};
ghost use Rattle.md_write.specs.Writing.{RefusesWrite, Writes};

use crate::data::write_to_members;
use crate::marks::store_marks_of_chunks;
use md_array::{BeginFault, Mirror, Pending};
use md_device::Device;
use md_metadata::{PartFault, lower_offsets, store_other_records, store_records};

// Makes a round of the request, until a member fails: stores the marks of its chunks and what is due, and writes its bytes. That
// recovering members surely have none of its chunks `begin` has seen to; each round does so by itself, which changes nothing more.
fn write_once<D: Device + Drop>(
    mirror: &mut Mirror<D>,
    pending: &mut Pending<'_>,
    first: u32,
    end: u32,
) -> Result<(), PartFault>
    requires sound { IsConsistent mirror.old }
    requires pending { IsPending mirror.old.array pending.old }
    requires running { mirror.old.array.halted ≡ false }
    requires chunks { AreChunksOf mirror.old.array pending.old first end }
    ensures { MatchResult result (λ _. IsReadyToFinish pending.old pending.new mirror.old mirror.new) (WritingFails Part.Marks pending.old pending.new mirror.old mirror.new) }
{
    let sectors = mirror.chunks().sectors;
    lower_offsets(mirror, u64::from(first) * u64::from(sectors));
    store_marks_of_chunks(mirror, first, end)?;
    store_records(mirror)?;
    store_other_records(mirror)?;
    write_to_members(mirror, pending)
}

/// Writes `bytes` from this sector of the array on, on each member in sync. A member that fails on the
/// way is recorded as failed, and the write goes on. The fault is the first in the order of `BeginFault`;
/// `Halted` also comes where the last member in sync fails on the way, or the count can't rise.
///
/// Marks that are stored already are not stored again. Only `begin` takes memory.
pub fn write<D: Device + Drop>(
    mirror: &mut Mirror<D>,
    sector: u64,
    bytes: &[u8],
) -> Result<(), BeginFault>
    requires whole { length bytes.now % 512 ≡ 0 }
    requires sound { IsConsistent mirror.old }
    ensures gives { MatchResult result (λ _. Writes sector bytes.now mirror.old mirror.new) (RefusesWrite sector bytes.now mirror.old mirror.new) }
    ensures sound { IsConsistent mirror.new }
    ensures pending { (other : PendingView) → IsPending mirror.old.array other → IsPending mirror.new.array other }
{
    let mut pending = mirror.begin(sector, bytes)?;
    let sectors = pending.sectors();
    let (first, end) = mirror.chunks().chunks_of(sector, sectors);
    loop {
        match write_once(mirror, &mut pending, first, end) {
            Ok(()) => break,
            Err(PartFault::Halted) => return Err(BeginFault::Halted),
            Err(PartFault::MemberFailed(_)) => {}
        }
    }
    match mirror.finish(pending) {
        Ok(()) => Ok(()),
        Err(_) => unreachable!(),
    }
}
