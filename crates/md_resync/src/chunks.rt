// The marked chunks are copied, run by run.
ghost use Rattle.std.specs.Prelude.{◌≡◌, ◌*◌, ◌/◌, ◌<◌, ◌≤◌, ℕ, MatchOption, MatchResult, length, true};
ghost use Rattle.std.specs.Int.{div_ceil};
ghost use Rattle.md_bitmap.specs.Marks.{is_set};
ghost use Rattle.md_array.specs.Consistency.{IsConsistent};
ghost use Rattle.md_resync.specs.Copying.{CopiesFrom, CopiesMarked, CopyingFails, GivingFails, IsInMarkedChunk, IsMarkedFrom, IsPart, IsUncrossed, MayCopyMarked, RunEnds};

use crate::fault::ResyncFault;
use crate::members::copy_to_members;
use crate::source::{end_of_run, source_of};
use md_array::Mirror;
use md_device::Device;

/// How a run of sectors ends.
enum Run {
    /// It is copied up to this sector.
    Copied(u64),
    /// This member is to give it, and could not be read.
    Unread(usize),
}

// Copies the run of sectors that begins at this one, and ends before `end`: as many as have one source and fit the
// buffer. What all members in sync list stays.
fn copy_run<D: Device + Drop>(
    mirror: &mut Mirror<D>,
    sector: u64,
    end: u64,
    buffer: &mut [u8],
    held: &mut [u8],
) -> Result<Run, ResyncFault>
    requires some { sector < end }
    requires room { 512 ≤ length buffer.old }
    requires as_much { length held.old ≡ length buffer.old }
    requires sound { IsConsistent mirror.old }
    requires part { IsPart sector end mirror.old.array }
    ensures { MatchResult result (RunEnds sector end mirror.old mirror.new) (GivingFails mirror.old mirror.new) }
{
    let Some(from) = source_of(mirror, sector) else {
        return Ok(Run::Copied(sector + 1));
    };
    let limit = sector + (end - sector).min(buffer.len() as u64 / 512);
    let next = end_of_run(mirror, from, sector, limit);
    let bytes = &mut buffer[..(512 * (next - sector)) as usize];
    if mirror.read_data(from, sector, bytes).is_err() {
        return Ok(Run::Unread(from));
    }
    copy_to_members(mirror, from, sector, bytes, held)?;
    Ok(Run::Copied(next))
}

// The chunk behind those that lie together from this one on and are marked, of which each begins within so many
// sectors from the first.
fn end_of_marked<D: Device + Drop>(mirror: &Mirror<D>, chunk: u32, most: u64) -> u32
    requires sound { IsConsistent mirror.now }
    requires within { chunk < div_ceil mirror.now.array.chunks.size mirror.now.array.chunks.sectors }
    requires marked { is_set mirror.now.array.marks.bytes chunk ≡ true }
    ensures from { chunk < result }
    ensures within { result ≤ div_ceil mirror.now.array.chunks.size mirror.now.array.chunks.sectors }
    ensures marked { (c : ℕ) → chunk ≤ c → c < result → is_set mirror.now.array.marks.bytes c ≡ true }
{
    let chunks = mirror.chunks();
    for next in chunk + 1..chunks.count() {
        let len = u64::from(next - chunk) * u64::from(chunks.sectors);
        if len >= most || !mirror.marks().is_marked(next) {
            return next;
        }
    }
    chunks.count()
}

// Copies the run that begins at this sector, as far as marked chunks lie together. It may end within its own chunk,
// where another member gives the next sector. Answers no end, and copies nothing, where there is no chunk to join, where
// this one is to be copied alone, and where the run could not be read. Chunks below `alone` are copied alone: a run of
// them could not be read, and each read of a bad sector may take a disk a minute.
fn copy_across<D: Device + Drop>(
    mirror: &mut Mirror<D>,
    chunk: u32,
    sector: u64,
    alone: &mut u32,
    buffer: &mut [u8],
    held: &mut [u8],
) -> Result<Option<u64>, ResyncFault>
    requires within { sector < mirror.old.array.chunks.size }
    requires chunk { chunk ≡ sector / mirror.old.array.chunks.sectors }
    requires marked { is_set mirror.old.array.marks.bytes chunk ≡ true }
    requires room { 512 ≤ length buffer.old }
    requires as_much { length held.old ≡ length buffer.old }
    requires sound { IsConsistent mirror.old }
    requires may { MayCopyMarked mirror.old.array }
    ensures { MatchResult result
        (λ next. MatchOption next (IsUncrossed mirror.old mirror.new) (λ next. CopiesFrom sector next mirror.old mirror.new))
        (GivingFails mirror.old mirror.new) }
{
    if chunk < *alone {
        return Ok(None);
    }
    let behind = end_of_marked(mirror, chunk, buffer.len() as u64 / 512);
    if behind == chunk + 1 {
        return Ok(None);
    }
    let (start, sectors) = mirror.chunks().range(behind - 1);
    match copy_run(mirror, sector, start + sectors, buffer, held)? {
        Run::Copied(next) => Ok(Some(next)),
        Run::Unread(_) => {
            *alone = behind;
            Ok(None)
        }
    }
}

// Copies the run that begins at this sector of a marked chunk. What can't be read together with further chunks is read
// chunk by chunk, so that a fault names a chunk of which a read failed.
fn copy_next<D: Device + Drop>(
    mirror: &mut Mirror<D>,
    chunk: u32,
    sector: u64,
    alone: &mut u32,
    buffer: &mut [u8],
    held: &mut [u8],
) -> Result<u64, ResyncFault>
    requires within { sector < mirror.old.array.chunks.size }
    requires chunk { chunk ≡ sector / mirror.old.array.chunks.sectors }
    requires marked { is_set mirror.old.array.marks.bytes chunk ≡ true }
    requires room { 512 ≤ length buffer.old }
    requires as_much { length held.old ≡ length buffer.old }
    requires sound { IsConsistent mirror.old }
    requires may { MayCopyMarked mirror.old.array }
    ensures { MatchResult result (λ next. CopiesFrom sector next mirror.old mirror.new) (CopyingFails (IsMarkedFrom mirror.old.array sector) mirror.old mirror.new) }
{
    if let Some(next) = copy_across(mirror, chunk, sector, alone, buffer, held)? {
        return Ok(next);
    }
    let (start, sectors) = mirror.chunks().range(chunk);
    match copy_run(mirror, sector, start + sectors, buffer, held)? {
        Run::Copied(next) => Ok(next),
        Run::Unread(from) => Err(ResyncFault::ReadFault(from, chunk)),
    }
}

// Copies the run that begins at this sector, if its chunk is marked, and else passes the chunk. Answers where that
// ends.
fn copy_if_marked<D: Device + Drop>(
    mirror: &mut Mirror<D>,
    sector: u64,
    alone: &mut u32,
    buffer: &mut [u8],
    held: &mut [u8],
) -> Result<u64, ResyncFault>
    requires within { sector < mirror.old.array.chunks.size }
    requires room { 512 ≤ length buffer.old }
    requires as_much { length held.old ≡ length buffer.old }
    requires sound { IsConsistent mirror.old }
    requires may { MayCopyMarked mirror.old.array }
    ensures { MatchResult result (λ next. CopiesFrom sector next mirror.old mirror.new) (CopyingFails (IsMarkedFrom mirror.old.array sector) mirror.old mirror.new) }
{
    let chunks = mirror.chunks();
    let chunk = chunks.chunk_of(sector);
    if !mirror.marks().is_marked(chunk) {
        let (start, sectors) = chunks.range(chunk);
        return Ok(start + sectors);
    }
    copy_next(mirror, chunk, sector, alone, buffer, held)
}

/// Copies each chunk that is marked, where they lie together several at once. Takes no memory.
pub(crate) fn copy_marked<D: Device + Drop>(
    mirror: &mut Mirror<D>,
    buffer: &mut [u8],
    held: &mut [u8],
) -> Result<(), ResyncFault>
    requires room { 512 ≤ length buffer.old }
    requires as_much { length held.old ≡ length buffer.old }
    requires sound { IsConsistent mirror.old }
    requires may { MayCopyMarked mirror.old.array }
    ensures { MatchResult result (λ _. CopiesMarked mirror.old mirror.new) (CopyingFails (IsInMarkedChunk mirror.old.array) mirror.old mirror.new) }
{
    let size = mirror.chunks().size;
    let mut sector = 0;
    let mut alone = 0;
    while sector < size {
        sector = copy_if_marked(mirror, sector, &mut alone, buffer, held)?;
    }
    Ok(())
}
