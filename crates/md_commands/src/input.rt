// The input of a write.
ghost use Rattle.std.specs.Prelude.{◌≡◌, ◌+◌, ◌*◌, ◌-◌, ◌<◌, ◌≤◌, ◌++◌, MatchResult, length};
ghost use Rattle.md_commands.specs.ReadingInput.{AppendingFails, AppendsPiece, HasGoodLength, IsInput, ReadingInputFails, RefusesInput, RefusesLength, TakesUpTo};

use md_refusals::CommandFault;
use md_streams::Source;
use std::alloc::Global;

// How many bytes are asked for at once: 64 KiB.
const PIECE_BYTES: usize = 65_536;

/// Reads all of an input of whole sectors for an array of so many, which it keeps in memory.
pub(crate) fn whole_input<I: Source>(
    alloc: Global,
    input: &mut I,
    size: u64,
) -> Result<Vec<u8>, CommandFault>
    ensures { MatchResult result
        (λ bytes. IsInput I.Source size input.old input.new bytes.items)
        (RefusesInput I.Source size input.old input.new) }
{
    let bytes = read_input(alloc, input, size)?;
    check_length(bytes.len() as u64, size)?;
    Ok(bytes)
}

// Reads an input to its end, or to one byte more than an array of so many sectors has.
fn read_input<I: Source>(alloc: Global, input: &mut I, size: u64) -> Result<Vec<u8>, CommandFault>
    ensures { MatchResult result
        (λ bytes. TakesUpTo I.Source (512 * size + 1) input.old input.new bytes.items)
        (ReadingInputFails I.Source size input.old input.new) }
{
    let mut piece = vec![in alloc; 0; PIECE_BYTES]?;
    read_pieces(alloc, input, size, &mut piece)
}

// Reads an input to its end, or to one byte more than an array of so many sectors has, by pieces of at most
// so many bytes as this one has.
fn read_pieces<I: Source>(
    alloc: Global,
    input: &mut I,
    size: u64,
    piece: &mut [u8],
) -> Result<Vec<u8>, CommandFault>
    requires some { 0 < length piece.old }
    ensures { MatchResult result
        (λ bytes. TakesUpTo I.Source (512 * size + 1) input.old input.new bytes.items)
        (ReadingInputFails I.Source size input.old input.new) }
{
    let mut bytes = Vec::new(alloc);
    loop {
        let room = room_after(&bytes, size, piece.len());
        if room == 0 || append_piece(input, &mut piece[..room], &mut bytes)? == 0 {
            return Ok(bytes);
        }
    }
}

// How many bytes are asked for after these: a piece, or as many as there may be.
fn room_after(bytes: &[u8], size: u64, piece: usize) -> usize
    ensures piece { result ≤ piece }
    ensures none { 0 < piece → result ≡ 0 → 512 * size < length bytes.now }
    ensures most { length bytes.now ≤ 512 * size + 1 → length bytes.now + result ≤ 512 * size + 1 }
{
    let most = size.saturating_mul(512).saturating_add(1);
    let left = most.saturating_sub(bytes.len() as u64);
    left.min(piece as u64) as usize
}

// Takes a piece of the input, and appends it.
fn append_piece<I: Source>(
    input: &mut I,
    piece: &mut [u8],
    bytes: &mut Vec<u8>,
) -> Result<usize, CommandFault>
    ensures { MatchResult result
        (AppendsPiece I.Source (length piece.old) input.old input.new bytes.old.items bytes.new.items)
        (AppendingFails I.Source (length piece.old) input.old input.new) }
{
    let taken = input.take(piece)?;
    bytes.extend_from_slice(&piece[..taken])?;
    Ok(taken)
}

/// Whether so many bytes are whole sectors, and no more than an array of so many sectors has.
pub(crate) fn check_length(len: u64, size: u64) -> Result<(), CommandFault>
    ensures { MatchResult result (λ _. HasGoodLength size len) (RefusesLength size len) }
{
    let sectors = len / 512;
    let rest = len % 512;
    if sectors > size || (sectors == size && rest > 0) {
        return Err(CommandFault::OutOfRange);
    }
    if rest > 0 {
        return Err(CommandFault::BadLength);
    }
    Ok(())
}
