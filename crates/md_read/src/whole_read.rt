// Reading an array.
ghost use Rattle.std.specs.Prelude.{◌≡◌, ◌+◌, ◌/◌, ◌%◌, ◌^◌, ◌<◌, IfErr, IfOk, MatchResult, length};
ghost use Rattle.md_inflight.specs.Requests.Pending.{PendingView};
ghost use Rattle.md_state.specs.Requests.{IsPending};
ghost use Rattle.md_array.specs.Consistency.{IsConsistent};
ghost use Rattle.md_read.specs.Reading.{LeavesBuffer, MayReadAt, Reads, RefusesRead};

use crate::fault::UnreadFault;
use crate::runs::read_runs;
use md_array::Mirror;
use md_device::Device;

/// Fills `buf` with what the array has from this sector on. Each sector is read from the member in sync of
/// the lowest role that does not list it, and from the next where that fails; members that are write-mostly
/// come after all others. Sectors that are read at once
/// are passed over at once: those around a bad one come from another member, where that gives all of them.
/// Nothing is written, and no memory is taken. At `Unreadable(s)` the sectors before s stand in `buf`, and any bytes after them;
/// at each other fault `buf` stays as it was.
pub fn read<D: Device + Drop>(
    mirror: &mut Mirror<D>,
    sector: u64,
    buf: &mut [u8],
) -> Result<(), UnreadFault>
    requires whole { length buf.old % 512 ≡ 0 }
    requires sound { IsConsistent mirror.old }
    ensures gives { MatchResult result (λ _. Reads sector buf.new mirror.old mirror.new) (RefusesRead sector buf.new mirror.old mirror.new) }
    ensures buffer { IfErr result (LeavesBuffer buf.old buf.new) }
    ensures sound { IsConsistent mirror.new }
    ensures pending { (p : PendingView) → IsPending mirror.old.array p → IsPending mirror.new.array p }
{
    check_read(mirror, sector, buf)?;
    read_runs(mirror, sector, buf)
}

// Whether these sectors may be read.
fn check_read<D: Device + Drop>(
    mirror: &Mirror<D>,
    sector: u64,
    buf: &[u8],
) -> Result<(), UnreadFault>
    ensures may { MatchResult result (λ _. MayReadAt mirror.now.array sector (length buf.now / 512)) (RefusesRead sector buf.now mirror.now mirror.now) }
    ensures fits { IfOk result (λ _. sector + length buf.now / 512 < 2 ^ 64) }
{
    if mirror.halted() {
        return Err(UnreadFault::Halted);
    }
    let sectors = buf.len() as u64 / 512;
    let size = mirror.chunks().size;
    if sectors == 0 || sectors > size || sector > size - sectors {
        return Err(UnreadFault::OutOfRange);
    }
    if !mirror.resynced() {
        return Err(UnreadFault::NotResynced);
    }
    Ok(())
}
