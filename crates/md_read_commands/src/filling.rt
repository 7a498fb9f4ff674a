// Sectors of the array are read and put out piece by piece, with what another member has, or zeros, in the place of those that are
// not given.
ghost use Rattle.std.specs.Prelude.{◌≡◌, ◌+◌, ◌*◌, ◌/◌, ◌%◌, ◌^◌, ◌<◌, ◌≤◌, MatchResult, length, min, vec_capacity, vec_len};
ghost use Rattle.md_inflight.specs.Requests.Pending.{PendingView};
ghost use Rattle.md_state.specs.Requests.{IsPending};
ghost use Rattle.md_array.specs.Consistency.{IsConsistent};
ghost use Rattle.md_streams.specs.Sink.{PutsOrFails};
ghost use Rattle.md_read_commands.specs.Filling.{FillsBlock, FillsFront, FillsMore, IsClear, NotesOne, PutsFilled, PutsFilledPiece, RefusesFilled, RefusesFilledPiece};
ghost use Rattle.md_streams.specs.Gaps.{AreFitGaps, AreTold, HasNoGaps};
ghost use Rattle.md_read_commands.specs.Holes.{HasFewMore, HasRoomForMore, HasSameRoom, capacity_of, gaps_of};
ghost use Rattle.md_read_commands.specs.Pieces.{piece_sectors};
ghost use Rattle.md_read_commands.specs.Ways.{MayReadBy};

use crate::buffer::buffer;
use crate::holes::Holes;
use crate::noting::add_holes;
use crate::others::read_other;
use crate::pieces::PIECE_SECTORS;
use crate::way::{Unread, Way, read_by};
use md_array::Mirror;
use md_badblocks::Run;
use md_device::Device;
use md_refusals::CommandFault;
use md_streams::{FillWatch, Gaps, Sink, SinkFault};
use std::alloc::Global;

/// Puts out sectors of an array, read in this way, through one buffer. Each that is not given is added
/// to `gaps`, and what another member has, or else zeros, is put out in its place. To read a piece takes no memory, to add what is
/// not given of it may.
pub(crate) fn put_filled<D: Device + Drop, W: FillWatch, S: Sink>(
    alloc: Global,
    mirror: &mut Mirror<D>,
    way: Way,
    sectors: Sectors,
    gaps: &mut Gaps,
    watch: &W,
    out: &mut S,
) -> Result<(), CommandFault>
    requires may { MayReadBy way mirror.old.array sectors.sector sectors.count }
    requires fits { sectors.sector + sectors.count < 2 ^ 64 }
    requires sound { IsConsistent mirror.old }
    requires none { HasNoGaps gaps.old }
    ensures gives { MatchResult result
        (λ _. PutsFilled S.Sink way sectors.sector sectors.count gaps.new mirror.old mirror.new
        out.old out.new)
        (RefusesFilled S.Sink way sectors.sector sectors.count gaps.new mirror.old mirror.new
        out.old out.new) }
    ensures told { AreTold (W.misses watch.now) (W.takes watch.now) gaps.new }
    ensures sound { IsConsistent mirror.new }
    ensures pending { (p : PendingView) → IsPending mirror.old.array p → IsPending mirror.new.array p }
{
    let Sectors { sector, count } = sectors;
    let mut piece = buffer(alloc, count.min(PIECE_SECTORS))?;
    let mut holes = Holes::with_capacity(alloc, PIECE_SECTORS as usize)?;
    let asked = Asked { way, sector, count };
    put_filled_pieces(mirror, asked, &mut piece, &mut holes, gaps, watch, out)
}

/// So many sectors of the array, from this one on.
#[derive(Clone, Copy)]
pub(crate) struct Sectors {
    pub(crate) sector: u64,
    pub(crate) count: u64,
}

// So many sectors of the array, from this one on, read in this way.
#[derive(Clone, Copy)]
struct Asked {
    way: Way,
    sector: u64,
    count: u64,
}

// Puts them out through this buffer, of a piece, or of all of them where these are fewer. `holes` is room for those of a piece that are
// not given.
fn put_filled_pieces<D: Device + Drop, W: FillWatch, S: Sink>(
    mirror: &mut Mirror<D>,
    asked: Asked,
    buffer: &mut [u8],
    holes: &mut Holes,
    gaps: &mut Gaps,
    watch: &W,
    out: &mut S,
) -> Result<(), CommandFault>
    requires room { length buffer.old ≡ 512 * min asked.count piece_sectors }
    requires holes { piece_sectors ≤ capacity_of holes.old }
    requires may { MayReadBy asked.way mirror.old.array asked.sector asked.count }
    requires fits { asked.sector + asked.count < 2 ^ 64 }
    requires sound { IsConsistent mirror.old }
    requires none { HasNoGaps gaps.old }
    ensures gives { MatchResult result
        (λ _. PutsFilled S.Sink asked.way asked.sector asked.count gaps.new mirror.old mirror.new
        out.old out.new)
        (RefusesFilled S.Sink asked.way asked.sector asked.count gaps.new mirror.old mirror.new
        out.old out.new) }
    ensures told { AreTold (W.misses watch.now) (W.takes watch.now) gaps.new }
    ensures sound { IsConsistent mirror.new }
    ensures pending { (p : PendingView) → IsPending mirror.old.array p → IsPending mirror.new.array p }
{
    let mut done = 0;
    while done < asked.count {
        let sectors = PIECE_SECTORS.min(asked.count - done);
        let part = Asked {
            way: asked.way,
            sector: asked.sector + done,
            count: sectors,
        };
        put_filled_piece(
            mirror,
            part,
            &mut buffer[..512 * sectors as usize],
            holes,
            gaps,
            watch,
            out,
        )?;
        done += sectors;
    }
    out.flush()?;
    Ok(())
}

// Fills a piece with the sectors that are asked for, tells what is not given of it and adds that, and puts the piece out.
fn put_filled_piece<D: Device + Drop, W: FillWatch, S: Sink>(
    mirror: &mut Mirror<D>,
    asked: Asked,
    piece: &mut [u8],
    holes: &mut Holes,
    gaps: &mut Gaps,
    watch: &W,
    out: &mut S,
) -> Result<(), CommandFault>
    requires whole { length piece.old % 512 ≡ 0 }
    requires holes { length piece.old / 512 ≤ capacity_of holes.old }
    requires may { MayReadBy asked.way mirror.old.array asked.sector (length piece.old / 512) }
    requires sound { IsConsistent mirror.old }
    requires clear { IsClear gaps.old asked.sector }
    requires told { AreTold (W.misses watch.now) (W.takes watch.now) gaps.old }
    ensures gives { MatchResult result
        (λ _. PutsFilledPiece S.Sink asked.way asked.sector piece.new gaps.old gaps.new
        mirror.old mirror.new out.old out.new)
        (RefusesFilledPiece S.Sink asked.way asked.sector (length piece.old / 512) gaps.old
        gaps.new mirror.old mirror.new out.old out.new) }
    ensures told { AreTold (W.misses watch.now) (W.takes watch.now) gaps.new }
    ensures holes { HasSameRoom holes.old holes.new }
    ensures sound { IsConsistent mirror.new }
    ensures pending { (p : PendingView) → IsPending mirror.old.array p → IsPending mirror.new.array p }
{
    holes.clear();
    fill_piece(mirror, asked.way, asked.sector, piece, holes);
    watch.lacks(&holes.missing, &holes.others);
    add_holes(gaps, holes)?;
    put_told(piece, holes, watch, out)?;
    Ok(())
}

// Puts a piece out, once the watch is told what is not given of it: whoever keeps the piece knows of these sectors by then.
fn put_told<W: FillWatch, S: Sink>(
    piece: &[u8],
    _holes: &Holes,
    _watch: &W,
    out: &mut S,
) -> Result<(), SinkFault>
    requires told { AreTold (W.misses _watch.now) (W.takes _watch.now) (gaps_of _holes.now) }
    ensures { PutsOrFails S.contents S.failed out.old out.new piece.now result }
{
    out.put(piece)
}

/// Fills a piece with what is read. In the place of each sector that is not given, which is added to `holes`, comes what another member
/// has, or zeros. The next read after such a sector asks for one alone, and each that is given doubles it: so in a long bad area each
/// sector is tried once on each member.
pub(crate) fn fill_piece<D: Device + Drop>(
    mirror: &mut Mirror<D>,
    way: Way,
    sector: u64,
    piece: &mut [u8],
    holes: &mut Holes,
)
    requires whole { length piece.old % 512 ≡ 0 }
    requires room { HasRoomForMore (length piece.old / 512) holes.old }
    requires may { MayReadBy way mirror.old.array sector (length piece.old / 512) }
    requires sound { IsConsistent mirror.old }
    requires clear { IsClear (gaps_of holes.old) sector }
    requires fit { AreFitGaps (gaps_of holes.old) }
    ensures gives { FillsMore way sector piece.new (gaps_of holes.old) (gaps_of holes.new)
        mirror.old mirror.new }
    ensures room { HasSameRoom holes.old holes.new }
    ensures fit { AreFitGaps (gaps_of holes.new) }
    ensures sound { IsConsistent mirror.new }
    ensures pending { (p : PendingView) → IsPending mirror.old.array p → IsPending mirror.new.array p }
{
    let sectors = piece.len() / 512;
    let mut done = 0;
    let mut most = sectors;
    while done < sectors {
        let end = done + most.min(sectors - done);
        let at = sector + done as u64;
        let filled = fill_front(mirror, way, at, &mut piece[512 * done..512 * end], holes);
        done += filled.sectors;
        most = filled.most;
    }
}

// How many sectors were filled, and how many are to be asked for next.
#[derive(Drop)]
struct Filled {
    sectors: usize,
    most: usize,
}

// Fills the sectors at the front of these bytes: all that are given, or those before the first that is not and then that one.
fn fill_front<D: Device + Drop>(
    mirror: &mut Mirror<D>,
    way: Way,
    sector: u64,
    bytes: &mut [u8],
    holes: &mut Holes,
) -> Filled
    requires whole { length bytes.old % 512 ≡ 0 }
    requires room { HasRoomForMore 1 holes.old }
    requires may { MayReadBy way mirror.old.array sector (length bytes.old / 512) }
    requires sound { IsConsistent mirror.old }
    requires clear { IsClear (gaps_of holes.old) sector }
    requires fit { AreFitGaps (gaps_of holes.old) }
    ensures gives { FillsFront way sector result.sectors bytes.new (gaps_of holes.old) (gaps_of holes.new)
        mirror.old mirror.new }
    ensures next { 0 < result.most }
    ensures more { HasFewMore 1 holes.old holes.new }
    ensures room { HasSameRoom holes.old holes.new }
    ensures fit { AreFitGaps (gaps_of holes.new) }
    ensures sound { IsConsistent mirror.new }
    ensures pending { (p : PendingView) → IsPending mirror.old.array p → IsPending mirror.new.array p }
{
    match read_by(mirror, way, sector, bytes) {
        Ok(()) => {
            let sectors = bytes.len() / 512;
            Filled {
                sectors,
                most: 2 * sectors,
            }
        }
        Err(unread) => {
            let given = (unread.sector - sector) as usize;
            let block = &mut bytes[512 * given..512 * given + 512];
            fill_block(mirror, &unread, block, holes);
            Filled {
                sectors: given + 1,
                most: 1,
            }
        }
    }
}

// Fills a sector that was not given with what another member has, or else with zeros, and adds it to `holes`.
fn fill_block<D: Device + Drop>(
    mirror: &mut Mirror<D>,
    unread: &Unread,
    block: &mut [u8],
    holes: &mut Holes,
)
    requires one { length block.old ≡ 512 }
    requires room { HasRoomForMore 1 holes.old }
    requires inside { unread.now.sector < mirror.old.array.chunks.size }
    requires sound { IsConsistent mirror.old }
    ensures gives { FillsBlock unread.now.fault unread.now.sector block.new (gaps_of holes.old)
        (gaps_of holes.new) mirror.old mirror.new }
    ensures more { HasFewMore 1 holes.old holes.new }
    ensures room { HasSameRoom holes.old holes.new }
    ensures sound { IsConsistent mirror.new }
    ensures pending { (p : PendingView) → IsPending mirror.old.array p → IsPending mirror.new.array p }
{
    if read_other(mirror, unread, block) {
        push_one(&mut holes.others, unread.sector);
        return;
    }
    block.fill(0);
    push_one(&mut holes.missing, unread.sector);
}

// Adds a sector, for which there is room.
fn push_one(runs: &mut Vec<Run>, sector: u64)
    requires room { vec_len runs.old < vec_capacity runs.old }
    ensures notes { NotesOne sector runs.old.items runs.new.items }
    ensures more { vec_len runs.new ≡ vec_len runs.old + 1 }
    ensures room { vec_capacity runs.new ≡ vec_capacity runs.old }
{
    runs.push_reserved(Run {
        start: sector,
        len: 1,
    });
}
