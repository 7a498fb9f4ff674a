// Reading an array that is not resynced as a resync would leave it.
ghost use Rattle.std.specs.Prelude.{◌≡◌, ◌+◌, ◌*◌, ◌/◌, ◌%◌, ◌^◌, ◌<◌, ◌≤◌, ℕ, IfErr, IfOk, MatchResult, length};
ghost use Rattle.md_inflight.specs.Requests.Pending.{PendingView};
ghost use Rattle.md_state.specs.Requests.{IsPending};
ghost use Rattle.md_array.specs.Consistency.{IsConsistent};
ghost use Rattle.md_read.specs.Unresynced.{AllFrom, GivesNoPart, GivesPartFront, GivesParts, IsEndedBy, LeavesUnresyncedBuffer, MayReadSectors, ReadsUnresynced, RefusesUnresynced};

use crate::runs::read_front;
use crate::sources::read_marked;
use crate::unresynced_fault::UnresyncedFault;
use md_array::Mirror;
use md_device::Device;

/// Fills `buf` with what `read` would give from this sector of the array on if the array were resynced before, though it
/// may not be: each sector of a marked chunk is read from the member that a resync copies it from, and from no
/// other, and each other sector as `read` reads it.
/// Nothing is written, and no memory is taken. At `Unreadable(s)` and `ReadFault(k, s)` the sectors before s stand in `buf`, and
/// any bytes after them; at each other fault `buf` stays as it was.
pub fn read_unresynced<D: Device + Drop>(
    mirror: &mut Mirror<D>,
    sector: u64,
    buf: &mut [u8],
) -> Result<(), UnresyncedFault>
    requires whole { length buf.old % 512 ≡ 0 }
    requires sound { IsConsistent mirror.old }
    ensures gives { MatchResult result (λ _. ReadsUnresynced sector buf.new mirror.old mirror.new) (RefusesUnresynced sector buf.new mirror.old mirror.new) }
    ensures buffer { IfErr result (LeavesUnresyncedBuffer buf.old buf.new) }
    ensures sound { IsConsistent mirror.new }
    ensures pending { (p : PendingView) → IsPending mirror.old.array p → IsPending mirror.new.array p }
{
    check_sectors(mirror, sector, buf)?;
    read_parts(mirror, sector, buf)
}

// Whether the mirror runs, and the array has these sectors.
fn check_sectors<D: Device + Drop>(
    mirror: &Mirror<D>,
    sector: u64,
    buf: &[u8],
) -> Result<(), UnresyncedFault>
    ensures may { MatchResult result (λ _. MayReadSectors mirror.now.array sector (length buf.now / 512)) (RefusesUnresynced sector buf.now mirror.now mirror.now) }
    ensures fits { IfOk result (λ _. sector + length buf.now / 512 < 2 ^ 64) }
{
    if mirror.halted() {
        return Err(UnresyncedFault::Halted);
    }
    let sectors = buf.len() as u64 / 512;
    let size = mirror.chunks().size;
    if sectors == 0 || sectors > size || sector > size - sectors {
        return Err(UnresyncedFault::OutOfRange);
    }
    Ok(())
}

// Reads these sectors of the array, chunk by chunk. After sectors that came few at a time, twice as many are tried.
fn read_parts<D: Device + Drop>(
    mirror: &mut Mirror<D>,
    sector: u64,
    buf: &mut [u8],
) -> Result<(), UnresyncedFault>
    requires whole { length buf.old % 512 ≡ 0 }
    requires inside { sector + length buf.old / 512 ≤ mirror.old.array.chunks.size }
    requires fits { sector + length buf.old / 512 < 2 ^ 64 }
    requires sound { IsConsistent mirror.old }
    ensures { MatchResult result (λ _. GivesParts sector buf.new mirror.old mirror.new) (λ reason. IsEndedBy sector buf.new reason mirror.old mirror.new) }
{
    let mut done = 0;
    let mut most = buf.len() / 512;
    while done < buf.len() {
        let at = sector + done as u64 / 512;
        let few = most.min((buf.len() - done) / 512);
        let sectors = of_one_chunk(mirror, at, few as u64) as usize;
        let given = read_part(mirror, at, &mut buf[done..done + 512 * sectors])?;
        done += 512 * given as usize;
        most = 2 * given as usize;
    }
    Ok(())
}

// How many of these sectors are of the first one's chunk.
fn of_one_chunk<D: Device + Drop>(mirror: &Mirror<D>, sector: u64, sectors: u64) -> u64
    requires some { 0 < sectors }
    requires inside { sector + sectors ≤ mirror.now.array.chunks.size }
    ensures some { 0 < result }
    ensures few { result ≤ sectors }
    ensures one { AllFrom sector result (λ s. s / mirror.now.array.chunks.sectors ≡ sector / mirror.now.array.chunks.sectors) }
{
    let chunks = mirror.chunks();
    let (start, count) = chunks.range(chunks.chunk_of(sector));
    sectors.min(start + count - sector)
}

// Reads the first of these sectors, which are of one chunk, and as many after it as come with it. The answer is how many.
fn read_part<D: Device + Drop>(
    mirror: &mut Mirror<D>,
    sector: u64,
    buf: &mut [u8],
) -> Result<u64, UnresyncedFault>
    requires some { 512 ≤ length buf.old }
    requires whole { length buf.old % 512 ≡ 0 }
    requires inside { sector + length buf.old / 512 ≤ mirror.old.array.chunks.size }
    requires one { AllFrom sector (length buf.old / 512) (λ s. s / mirror.old.array.chunks.sectors ≡ sector / mirror.old.array.chunks.sectors) }
    requires sound { IsConsistent mirror.old }
    ensures { MatchResult result (GivesPartFront sector buf.old buf.new mirror.old mirror.new) (GivesNoPart sector mirror.old mirror.new) }
{
    let chunk = mirror.chunks().chunk_of(sector);
    if mirror.marks().is_marked(chunk) {
        return read_marked(mirror, sector, buf);
    }
    match read_front(mirror, sector, buf) {
        Some(given) => Ok(given),
        None => Err(UnresyncedFault::Unreadable(sector)),
    }
}
