// The command that writes to an array.
ghost use Rattle.std.specs.Prelude.{◌≡◌, ◌%◌, IfOk, MatchResult, None, ℕ, length};
ghost use Rattle.md_inflight.specs.Requests.Pending.{PendingView};
ghost use Rattle.md_state.specs.Requests.{IsPending};
ghost use Rattle.md_array.specs.Consistency.{IsConsistent};
ghost use Rattle.md_commands.specs.ToldLength.{known_length};
ghost use Rattle.md_commands.specs.Writing.{IsToldOfLength, RefusesBytes, RefusesInMemory, RefusesToWrite, WritesArray, WritesInput, WritesReadied};
ghost use Rattle.md_commands.specs.WritingPieces.{IsToldOfFront};

use crate::input::whole_input;
use crate::output::put_summary;
use crate::resyncing::resync_if_needed;
use crate::told_length::known_length;
use crate::writing_pieces::write_in_pieces;
use md_array::{BeginFault, Mirror};
use md_device::Device;
use md_metadata::stop;
use md_refusals::CommandFault;
use md_streams::{Sink, Source, Watch};
use md_write::write;
use std::alloc::Global;

/// Writes all of an input to an array, from this sector on; then stops it, and puts out what it is in one
/// line. A degraded array that is not resynced is resynced first. The input is not read of a halted mirror, which is `Write` with
/// `Halted`, nor where its length is known before and must be refused: with `count` it has to have so many sectors, and else it may
/// tell how many bytes it has (`Source::bytes_left`). One that tells another length than `count` is `BadLength`.
///
/// An input whose length is known is written piece by piece, each by a `write` of its own: a piece is the memory that it takes, 16 MiB
/// at most. Nothing is done before the first piece was read. At `InputFault`, and at `BadLength`, which then also says that the input
/// ended before that length or went on after it, the pieces before stand, and so they do where one is refused; at `NoPieceMemory`
/// nothing was read. That it goes on is seen before the last piece is written. `watch` is told how many sectors there are, and after
/// each piece how many of them stand.
///
/// Any other input is read into memory before anything else is done, to its end or to one byte more than the array has, and
/// written at once: at `InputFault`, `OutOfRange`, `BadLength` and `NoPieceMemory` nothing was written.
///
/// The sector and the length of the input are compared with the end of the array after the resync, and before anything is written:
/// that is `Write` with `OutOfRange`, also where the input is empty.
///
///     let mut input = Input::new(&[7; 512][..]);
///     let mut out = Output::new(rt.stdout());
///     write_array(rt.alloc(), &mut mirror, 8, None, &mut input, &watch, &mut out)?; // puts out `in sync 2 of 2, events 3, marked 0`
pub fn write_array<D: Device + Drop, I: Source, W: Watch, S: Sink>(
    alloc: Global,
    mirror: &mut Mirror<D>,
    sector: u64,
    count: Option<u64>,
    input: &mut I,
    watch: &W,
    out: &mut S,
) -> Result<(), CommandFault>
    requires sound { IsConsistent mirror.old }
    ensures gives { (written : ℕ) × IsToldOfFront W.has_written watch.now written
        × MatchResult result
        (λ _. WritesArray I.Source S.Sink sector count mirror.old mirror.new input.old input.new
        out.old out.new)
        (RefusesToWrite I.Source S.Sink sector count mirror.old mirror.new input.old input.new
        out.old out.new written) }
    ensures told { IfOk result (λ _. IsToldOfLength W.writes W.has_written watch.now
        (known_length count (I.told input.old))) }
    ensures sound { IsConsistent mirror.new }
    ensures pending { (p : PendingView) → IsPending mirror.old.array p → IsPending mirror.new.array p }
{
    if mirror.halted() {
        return Err(CommandFault::Write(BeginFault::Halted));
    }
    let len = known_length(mirror, sector, count, input.bytes_left())?;
    match len {
        Some(len) => write_in_pieces(alloc, mirror, sector, len, input, watch)?,
        None => write_at_once(alloc, mirror, sector, input)?,
    }
    stop(mirror).map_err(CommandFault::Stop)?;
    put_summary(mirror, out)
}

// Reads an input into memory, and writes its bytes to the array.
fn write_at_once<D: Device + Drop, I: Source>(
    alloc: Global,
    mirror: &mut Mirror<D>,
    sector: u64,
    input: &mut I,
) -> Result<(), CommandFault>
    requires sound { IsConsistent mirror.old }
    ensures gives { MatchResult result
        (λ _. WritesInput I.Source sector mirror.old mirror.new input.old input.new None)
        (RefusesInMemory I.Source sector mirror.old mirror.new input.old input.new) }
    ensures sound { IsConsistent mirror.new }
    ensures pending { (p : PendingView) → IsPending mirror.old.array p → IsPending mirror.new.array p }
{
    let bytes = whole_input(alloc, input, mirror.chunks().size)?;
    write_bytes(alloc, mirror, sector, &bytes)
}

// Writes these bytes to the array, after a resync where it needs one.
fn write_bytes<D: Device + Drop>(
    alloc: Global,
    mirror: &mut Mirror<D>,
    sector: u64,
    bytes: &[u8],
) -> Result<(), CommandFault>
    requires whole { length bytes.now % 512 ≡ 0 }
    requires sound { IsConsistent mirror.old }
    ensures gives { MatchResult result
        (λ _. WritesReadied sector bytes.now mirror.old mirror.new)
        (RefusesBytes sector bytes.now mirror.old mirror.new) }
    ensures sound { IsConsistent mirror.new }
    ensures pending { (p : PendingView) → IsPending mirror.old.array p → IsPending mirror.new.array p }
{
    resync_if_needed(alloc, mirror).map_err(CommandFault::Resync)?;
    write(mirror, sector, bytes).map_err(CommandFault::Write)?;
    Ok(())
}
