// An input whose length is known is written piece by piece.
ghost use Rattle.std.specs.Prelude.{◌≡◌, ◌+◌, ◌*◌, ◌/◌, ◌%◌, ◌^◌, ◌<◌, ◌≤◌, IfOk, MatchResult, false, length, min, ℕ};
ghost use Rattle.md_inflight.specs.Requests.Pending.{PendingView};
ghost use Rattle.md_state.specs.Requests.{IsPending};
ghost use Rattle.md_state.specs.Steps.Begin.{IsInRange};
ghost use Rattle.md_array.specs.Consistency.{IsConsistent};
ghost use Rattle.md_streams.specs.Source.{Gives};
ghost use Rattle.md_commands.specs.WritingPieces.{BeginsPieces, FailsToEnd, FailsToTakePiece, HasEnded, IsReadyForPieces, IsToldOfAll, IsToldOfFront, RefusesPieces, RefusesReadying, TakesPiece, WritesInPieces, most_at_once, sectors_at_once};

use crate::resyncing::resync_if_needed;
use crate::told_length::is_in_range;
use md_array::{BeginFault, Mirror};
use md_device::Device;
use md_refusals::CommandFault;
use md_streams::{Source, Watch, fill_front};
use md_write::write;
use std::alloc::{AllocError, Global};

// The most sectors of a piece: 16 MiB.
const MOST_AT_ONCE: u64 = 32_768;

/// Writes an input of so many bytes from this sector of the array on, piece by piece, after a resync where it needs one. `watch` is
/// told how many sectors there are, and after each piece how many of them stand.
pub(crate) fn write_in_pieces<D: Device + Drop, I: Source, W: Watch>(
    alloc: Global,
    mirror: &mut Mirror<D>,
    sector: u64,
    len: u64,
    input: &mut I,
    watch: &W,
) -> Result<(), CommandFault>
    requires whole { len % 512 ≡ 0 }
    requires sound { IsConsistent mirror.old }
    ensures gives { (written : ℕ) × IsToldOfFront W.has_written watch.now written
        × MatchResult result
        (λ _. WritesInPieces I.Source sector len mirror.old mirror.new input.old input.new)
        (RefusesPieces I.Source sector len written mirror.old mirror.new input.old input.new) }
    ensures told { IfOk result (λ _. IsToldOfAll W.writes W.has_written watch.now (len / 512)) }
    ensures sound { IsConsistent mirror.new }
    ensures pending { (p : PendingView) → IsPending mirror.old.array p → IsPending mirror.new.array p }
{
    let count = len / 512;
    let mut room = room_for_piece(alloc, count)?;
    let buffer = room.as_mut_slice();
    let mut written = sectors_at_once(sector, count);
    let front = &mut buffer[..512 * written as usize];
    begin_pieces(alloc, mirror, sector, len, input, watch, front)?;
    watch.wrote(written);
    while written < count {
        let at = sector + written;
        let sectors = sectors_at_once(at, count - written);
        let is_last = written + sectors == count;
        let piece = &mut buffer[..512 * sectors as usize];
        take_piece(input, piece, is_last)?;
        write(mirror, at, piece).map_err(CommandFault::Write)?;
        written += sectors;
        watch.wrote(written);
    }
    Ok(())
}

// How many sectors a piece has that begins at this one, where so many are left.
fn sectors_at_once(sector: u64, left: u64) -> u64
    ensures { result ≡ sectors_at_once sector left }
{
    left.min(MOST_AT_ONCE - sector % MOST_AT_ONCE)
}

// Room for any piece of so many sectors.
fn room_for_piece(alloc: Global, sectors: u64) -> Result<Vec<u8>, AllocError>
    ensures { IfOk result (λ room. length room.items ≡ 512 * min sectors most_at_once) }
{
    vec![in alloc; 0; 512 * sectors.min(MOST_AT_ONCE) as usize]
}

// Takes the first piece, makes the array ready for all of them, and writes it.
fn begin_pieces<D: Device + Drop, I: Source, W: Watch>(
    alloc: Global,
    mirror: &mut Mirror<D>,
    sector: u64,
    len: u64,
    input: &mut I,
    watch: &W,
    piece: &mut [u8],
) -> Result<(), CommandFault>
    requires whole { len % 512 ≡ 0 }
    requires long { length piece.old ≡ 512 * sectors_at_once sector (len / 512) }
    requires sound { IsConsistent mirror.old }
    ensures gives { MatchResult result
        (λ _. BeginsPieces I.Source sector len mirror.old mirror.new input.old input.new piece.new)
        (RefusesPieces I.Source sector len 0 mirror.old mirror.new input.old input.new) }
    ensures fits { IfOk result (λ _. sector + len / 512 < 2 ^ 64) }
    ensures told { IfOk result (λ _. W.writes watch.now (len / 512)) }
    ensures sound { IsConsistent mirror.new }
    ensures pending { (p : PendingView) → IsPending mirror.old.array p → IsPending mirror.new.array p }
{
    let is_last = piece.len() as u64 == len;
    take_piece(input, piece, is_last)?;
    make_ready(alloc, mirror, sector, len / 512)?;
    watch.begins_write(len / 512);
    write(mirror, sector, piece).map_err(CommandFault::Write)?;
    Ok(())
}

// Resyncs an array that needs it, and looks whether it has these sectors.
fn make_ready<D: Device + Drop>(
    alloc: Global,
    mirror: &mut Mirror<D>,
    sector: u64,
    count: u64,
) -> Result<(), CommandFault>
    requires sound { IsConsistent mirror.old }
    ensures gives { MatchResult result
        (λ _. IsReadyForPieces sector count mirror.old mirror.new)
        (RefusesReadying sector count mirror.old mirror.new) }
    ensures fits { IfOk result (λ _. sector + count < 2 ^ 64) }
    ensures sound { IsConsistent mirror.new }
    ensures pending { (p : PendingView) → IsPending mirror.old.array p → IsPending mirror.new.array p }
{
    resync_if_needed(alloc, mirror).map_err(CommandFault::Resync)?;
    if !is_in_range(mirror, sector, count) {
        return Err(CommandFault::Write(BeginFault::OutOfRange));
    }
    Ok(())
}

// Takes as many bytes as the piece has, after which no byte comes if it is the last one.
fn take_piece<I: Source>(input: &mut I, piece: &mut [u8], is_last: bool) -> Result<(), CommandFault>
    ensures { MatchResult result
        (λ _. TakesPiece I.Source is_last input.old input.new piece.new)
        (FailsToTakePiece I.Source is_last (length piece.old) input.old input.new) }
{
    fill_piece(input, piece)?;
    if is_last {
        return check_end(input);
    }
    Ok(())
}

// Takes as many bytes as the piece has.
fn fill_piece<I: Source>(input: &mut I, piece: &mut [u8]) -> Result<(), CommandFault>
    ensures { MatchResult result
        (λ _. Gives I.remaining I.failed input.old input.new piece.new)
        (FailsToTakePiece I.Source false (length piece.old) input.old input.new) }
{
    let filled = fill_front(input, piece)?;
    if filled < piece.len() {
        return Err(CommandFault::BadLength);
    }
    Ok(())
}

// Whether no byte comes any more.
fn check_end<I: Source>(input: &mut I) -> Result<(), CommandFault>
    ensures { MatchResult result
        (λ _. HasEnded I.Source input.old input.new)
        (FailsToEnd I.Source input.old input.new) }
{
    let mut byte = [0; 1];
    if input.take(&mut byte)? > 0 {
        return Err(CommandFault::BadLength);
    }
    Ok(())
}
