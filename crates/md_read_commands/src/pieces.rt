// Sectors of the array are read and put out piece by piece.
ghost use Rattle.std.specs.Prelude.{◌≡◌, ◌+◌, ◌*◌, ◌/◌, ◌%◌, ◌^◌, ◌<◌, ◌≤◌, MatchResult, length};
ghost use Rattle.md_inflight.specs.Requests.Pending.{PendingView};
ghost use Rattle.md_state.specs.Requests.{IsPending};
ghost use Rattle.md_array.specs.Consistency.{IsConsistent};
ghost use Rattle.md_read_commands.specs.Pieces.{PutsPiece, PutsSectors, RefusesPiece, RefusesSectors, piece_sectors};
ghost use Rattle.md_read_commands.specs.Ways.{MayReadBy};

use crate::buffer::buffer;
use crate::output::put_out;
use crate::way::{Unread, Way, read_by};
use md_array::Mirror;
use md_device::Device;
use md_refusals::CommandFault;
use md_streams::Sink;
use std::alloc::Global;

/// The sectors of a piece: 1 MiB.
pub(crate) const PIECE_SECTORS: u64 = 2048;

/// Puts out `count` sectors of an array, from this one on, read in this way, through one buffer. What fits into it is put
/// out whole or not at all.
pub(crate) fn put_sectors<D: Device + Drop, S: Sink>(
    alloc: Global,
    mirror: &mut Mirror<D>,
    way: Way,
    sector: u64,
    count: u64,
    out: &mut S,
) -> Result<(), CommandFault>
    requires may { MayReadBy way mirror.old.array sector count }
    requires fits { sector + count < 2 ^ 64 }
    requires sound { IsConsistent mirror.old }
    ensures gives { MatchResult result
        (λ _. PutsSectors S.Sink way sector count mirror.old mirror.new out.old out.new)
        (RefusesSectors S.Sink way sector count mirror.old mirror.new out.old out.new) }
    ensures sound { IsConsistent mirror.new }
    ensures pending { (p : PendingView) → IsPending mirror.old.array p → IsPending mirror.new.array p }
{
    let mut piece = buffer(alloc, count.min(PIECE_SECTORS))?;
    if count <= PIECE_SECTORS {
        return put_whole(mirror, way, sector, &mut piece, out);
    }
    put_pieces(mirror, way, sector, count, &mut piece, out)
}

// Puts out as many sectors as the buffer has, once all are read.
fn put_whole<D: Device + Drop, S: Sink>(
    mirror: &mut Mirror<D>,
    way: Way,
    sector: u64,
    piece: &mut [u8],
    out: &mut S,
) -> Result<(), CommandFault>
    requires whole { length piece.old % 512 ≡ 0 }
    requires few { length piece.old / 512 ≤ piece_sectors }
    requires may { MayReadBy way mirror.old.array sector (length piece.old / 512) }
    requires sound { IsConsistent mirror.old }
    ensures gives { MatchResult result
        (λ _. PutsSectors S.Sink way sector (length piece.old / 512) mirror.old mirror.new out.old out.new)
        (RefusesSectors S.Sink way sector (length piece.old / 512) mirror.old mirror.new out.old out.new) }
    ensures sound { IsConsistent mirror.new }
    ensures pending { (p : PendingView) → IsPending mirror.old.array p → IsPending mirror.new.array p }
{
    match read_by(mirror, way, sector, piece) {
        Ok(()) => put_out(out, piece),
        Err(unread) => Err(unread.fault),
    }
}

// Puts out more sectors than the buffer has, each piece once it is read.
fn put_pieces<D: Device + Drop, S: Sink>(
    mirror: &mut Mirror<D>,
    way: Way,
    sector: u64,
    count: u64,
    buffer: &mut [u8],
    out: &mut S,
) -> Result<(), CommandFault>
    requires room { length buffer.old ≡ 512 * piece_sectors }
    requires more { piece_sectors < count }
    requires may { MayReadBy way mirror.old.array sector count }
    requires fits { sector + count < 2 ^ 64 }
    requires sound { IsConsistent mirror.old }
    ensures gives { MatchResult result
        (λ _. PutsSectors S.Sink way sector count mirror.old mirror.new out.old out.new)
        (RefusesSectors S.Sink way sector count mirror.old mirror.new out.old out.new) }
    ensures sound { IsConsistent mirror.new }
    ensures pending { (p : PendingView) → IsPending mirror.old.array p → IsPending mirror.new.array p }
{
    let mut done = 0;
    while done < count {
        let sectors = PIECE_SECTORS.min(count - done);
        put_piece(
            mirror,
            way,
            sector + done,
            &mut buffer[..512 * sectors as usize],
            out,
        )?;
        done += sectors;
    }
    out.flush()?;
    Ok(())
}

// Reads a piece and puts it out. Where a sector of it is not read, those before it are put out.
fn put_piece<D: Device + Drop, S: Sink>(
    mirror: &mut Mirror<D>,
    way: Way,
    sector: u64,
    piece: &mut [u8],
    out: &mut S,
) -> Result<(), CommandFault>
    requires whole { length piece.old % 512 ≡ 0 }
    requires may { MayReadBy way mirror.old.array sector (length piece.old / 512) }
    requires sound { IsConsistent mirror.old }
    ensures gives { MatchResult result
        (λ _. PutsPiece S.Sink way sector piece.new mirror.old mirror.new out.old out.new)
        (RefusesPiece S.Sink way sector piece.new mirror.old mirror.new out.old out.new) }
    ensures sound { IsConsistent mirror.new }
    ensures pending { (p : PendingView) → IsPending mirror.old.array p → IsPending mirror.new.array p }
{
    match read_by(mirror, way, sector, piece) {
        Ok(()) => {
            out.put(piece)?;
            Ok(())
        }
        Err(Unread { sector: s, fault }) => {
            put_out(out, &piece[..512 * (s - sector) as usize])?;
            Err(fault)
        }
    }
}
