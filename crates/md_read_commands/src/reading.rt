// The command that reads an array.
ghost use Rattle.std.specs.Prelude.{◌≡◌, ◌+◌, ◌^◌, ◌<◌, IfOk, MatchOption, MatchResult, Some, [], false, true};
ghost use Rattle.md_inflight.specs.Requests.Pending.{PendingView};
ghost use Rattle.md_state.specs.Requests.{IsPending};
ghost use Rattle.md_array.specs.Consistency.{IsConsistent};
ghost use Rattle.md_read_commands.specs.Filling.{FillsArray, IsFirstGap, IsLeastOf, ReadsFilled, RefusesToFill, has_put_all};
ghost use Rattle.md_streams.specs.Gaps.{AreTold, HasNoGaps};
ghost use Rattle.md_streams.specs.declared.gaps.Gaps.{Gaps as GapsView};
ghost use Rattle.md_read_commands.specs.Reading.{IsReadyTo, MayReadArray, ReadsArray, ReadsReadonly, RefusesRange, RefusesReadonly, RefusesReady, RefusesToRead};
ghost use Rattle.md_read_commands.specs.Ways.{MayReadBy};

use crate::filling::{Sectors, put_filled};
use crate::pieces::put_sectors;
use crate::way::Way;
use md_array::Mirror;
use md_badblocks::BadSet;
use md_commands::resync_if_needed;
use md_device::Device;
use md_read::UnreadFault;
use md_refusals::CommandFault;
use md_streams::{FillWatch, Gaps, Sink};
use std::alloc::Global;

/// Puts out `count` sectors of an array, from this one on. A degraded array that is not resynced is resynced
/// first. They are read and put out in pieces of 1 MiB, which is all the memory that they take.
///
/// That the mirror is halted, or the range empty or past the end, is looked for before anything else: that is
/// `Read` with `Halted` or `OutOfRange`. That members in sync may differ, which is `Read` with `NotResynced`, is
/// looked for before memory is taken.
///
/// `Read` with `Unreadable` comes while sectors are read. Of a range of one piece nothing has been put out then, of
/// a longer one the sectors before the unreadable one.
///
///     let mut out = Output::new(rt.stdout());
///     read_array(rt.alloc(), &mut mirror, 8, 2, &mut out)?; // puts out the 1024 bytes of sectors 8 and 9
pub fn read_array<D: Device + Drop, S: Sink>(
    alloc: Global,
    mirror: &mut Mirror<D>,
    sector: u64,
    count: u64,
    out: &mut S,
) -> Result<(), CommandFault>
    requires sound { IsConsistent mirror.old }
    ensures gives { MatchResult result
        (λ _. ReadsArray S.Sink sector count mirror.old mirror.new out.old out.new)
        (RefusesToRead S.Sink sector count mirror.old mirror.new out.old out.new) }
    ensures sound { IsConsistent mirror.new }
    ensures pending { (p : PendingView) → IsPending mirror.old.array p → IsPending mirror.new.array p }
{
    let way = make_ready(alloc, mirror, sector, count)?;
    put_sectors(alloc, mirror, way, sector, count, out)
}

/// Puts out `count` sectors of an array, from this one on, and writes nothing. Where `read_array` would resync first the array is
/// read as it would be after that: each sector of a marked chunk comes from the member that a resync copies it from.
/// They are read and put out in pieces of 1 MiB, which is all the memory that they take.
///
/// `Resync` with `ReadFault` says that such a member could not be read at a sector of the range. It comes while sectors are read,
/// as `Read` with `Unreadable` does: of a range of one piece nothing has been put out then, of a longer one the sectors
/// before. All other refusals are those of `read_array`, in the same order.
///
///     let mut out = Output::new(rt.stdout());
///     read_array_readonly(rt.alloc(), &mut mirror, 8, 2, &mut out)?; // puts out the 1024 bytes of sectors 8 and 9
pub fn read_array_readonly<D: Device + Drop, S: Sink>(
    alloc: Global,
    mirror: &mut Mirror<D>,
    sector: u64,
    count: u64,
    out: &mut S,
) -> Result<(), CommandFault>
    requires sound { IsConsistent mirror.old }
    ensures gives { MatchResult result
        (λ _. ReadsReadonly S.Sink sector count mirror.old mirror.new out.old out.new)
        (RefusesReadonly S.Sink sector count mirror.old mirror.new out.old out.new) }
    ensures sound { IsConsistent mirror.new }
    ensures pending { (p : PendingView) → IsPending mirror.old.array p → IsPending mirror.new.array p }
{
    let way = way_as_it_is(mirror, sector, count)?;
    put_sectors(alloc, mirror, way, sector, count, out)
}

/// Puts out `count` sectors of an array, from this one on, as `read_array` does or, where no image may be changed, as
/// `read_array_readonly`. But a sector at which these would end, for whichever reason, does not end it. Where the member that a resync
/// copies it from can't be read, what the first other member in sync has that gives it is put out: it may be older or newer. Where
/// none gives it zeros are put out. Both kinds come back, apart, whatever ends it once sectors may be put out.
///
/// `Read` with `Unreadable` says that there are some, of either kind, and which is the first. All sectors are put out then.
///
/// `NoPieceMemory` may also come after some were put out: each run of such sectors takes memory. There and at `OutputFault`
/// those of the last piece come back too, though not all of it was put out.
///
/// The watch is told of each such sector before anything is put out in its place.
///
///     let mut out = Output::new(rt.stdout());
///     let (gaps, done) = read_array_filled(rt.alloc(), &mut mirror, 8, 2, true, &watch, &mut out); // puts out 1024 bytes
pub fn read_array_filled<D: Device + Drop, W: FillWatch, S: Sink>(
    alloc: Global,
    mirror: &mut Mirror<D>,
    sector: u64,
    count: u64,
    readonly: bool,
    watch: &W,
    out: &mut S,
) -> (Option<Gaps>, Result<(), CommandFault>)
    requires sound { IsConsistent mirror.old }
    ensures gives { ReadsFilled S.Sink readonly sector count mirror.old mirror.new
        out.old out.new result.0 result.1 }
    ensures told { (gaps : GapsView) → result.0 ≡ Some gaps
        → AreTold (W.misses watch.now) (W.takes watch.now) gaps }
    ensures sound { IsConsistent mirror.new }
    ensures pending { (p : PendingView) → IsPending mirror.old.array p → IsPending mirror.new.array p }
{
    let mut gaps = Gaps::none(alloc);
    let sectors = Sectors { sector, count };
    match fill_array(alloc, mirror, sectors, readonly, &mut gaps, watch, out) {
        Ok(()) => (Some(gaps), Ok(())),
        Err(CommandFault::Read(UnreadFault::Unreadable(s))) => {
            let fault = CommandFault::Read(UnreadFault::Unreadable(s));
            (Some(gaps), Err(fault))
        }
        Err(CommandFault::NoPieceMemory) => (Some(gaps), Err(CommandFault::NoPieceMemory)),
        Err(CommandFault::OutputFault) => (Some(gaps), Err(CommandFault::OutputFault)),
        Err(fault) => (None, Err(fault)),
    }
}

/// Whether a read that fills has put out all sectors, by its answer.
pub fn has_put_all(answer: &Result<(), CommandFault>) -> bool
    ensures { result ≡ has_put_all answer.now }
{
    match answer {
        Ok(()) | Err(CommandFault::Read(UnreadFault::Unreadable(_))) => true,
        Err(_) => false,
    }
}

// Puts out sectors, and fills those that are not given. Which these are is noted, also where not all sectors are put out.
fn fill_array<D: Device + Drop, W: FillWatch, S: Sink>(
    alloc: Global,
    mirror: &mut Mirror<D>,
    sectors: Sectors,
    readonly: bool,
    gaps: &mut Gaps,
    watch: &W,
    out: &mut S,
) -> Result<(), CommandFault>
    requires none { HasNoGaps gaps.old }
    requires sound { IsConsistent mirror.old }
    ensures gives { MatchResult result
        (λ _. FillsArray S.Sink readonly sectors.sector sectors.count gaps.new mirror.old mirror.new
        out.old out.new)
        (RefusesToFill S.Sink readonly sectors.sector sectors.count gaps.new mirror.old mirror.new
        out.old out.new) }
    ensures told { AreTold (W.misses watch.now) (W.takes watch.now) gaps.new }
    ensures sound { IsConsistent mirror.new }
    ensures pending { (p : PendingView) → IsPending mirror.old.array p → IsPending mirror.new.array p }
{
    let way = ready(alloc, mirror, sectors.sector, sectors.count, readonly)?;
    put_filled(alloc, mirror, way, sectors, gaps, watch, out)?;
    first_gap(gaps).map_err(CommandFault::Read)?;
    Ok(())
}

/// Says which sector is the first that was not given, if one was not.
pub fn first_gap(gaps: &Gaps) -> Result<(), UnreadFault>
    ensures { MatchResult result (λ _. HasNoGaps gaps.now) (IsFirstGap gaps.now) }
{
    match (first_of(&gaps.missing), first_of(&gaps.others)) {
        (None, None) => Ok(()),
        (Some(s), None) => Err(UnreadFault::Unreadable(s)),
        (None, Some(s)) => Err(UnreadFault::Unreadable(s)),
        (Some(s), Some(t)) => Err(UnreadFault::Unreadable(s.min(t))),
    }
}

// The first sector of a set.
fn first_of(set: &BadSet) -> Option<u64>
    ensures { MatchOption result (set.now ≡ []) (IsLeastOf set.now) }
{
    match set.runs().first() {
        Some(run) => Some(run.start),
        None => None,
    }
}

// Makes an array ready to be read, or only looks how it can be read as it is.
fn ready<D: Device + Drop>(
    alloc: Global,
    mirror: &mut Mirror<D>,
    sector: u64,
    count: u64,
    readonly: bool,
) -> Result<Way, CommandFault>
    requires sound { IsConsistent mirror.old }
    ensures gives { MatchResult result
        (λ way. IsReadyTo readonly sector count mirror.old way mirror.new)
        (RefusesReady readonly sector count mirror.old mirror.new) }
    ensures may { IfOk result (λ way. MayReadBy way mirror.new.array sector count) }
    ensures fits { IfOk result (λ _. sector + count < 2 ^ 64) }
    ensures sound { IsConsistent mirror.new }
    ensures pending { (p : PendingView) → IsPending mirror.old.array p → IsPending mirror.new.array p }
{
    if readonly {
        way_as_it_is(mirror, sector, count)
    } else {
        make_ready(alloc, mirror, sector, count)
    }
}

// Resyncs an array whose sectors can't be read before.
fn make_ready<D: Device + Drop>(
    alloc: Global,
    mirror: &mut Mirror<D>,
    sector: u64,
    count: u64,
) -> Result<Way, CommandFault>
    requires sound { IsConsistent mirror.old }
    ensures gives { MatchResult result
        (λ way. IsReadyTo false sector count mirror.old way mirror.new)
        (RefusesReady false sector count mirror.old mirror.new) }
    ensures may { IfOk result (λ way. MayReadBy way mirror.new.array sector count) }
    ensures fits { IfOk result (λ _. sector + count < 2 ^ 64) }
    ensures sound { IsConsistent mirror.new }
    ensures pending { (p : PendingView) → IsPending mirror.old.array p → IsPending mirror.new.array p }
{
    check_range(mirror, sector, count).map_err(CommandFault::Read)?;
    resync_if_needed(alloc, mirror).map_err(CommandFault::Resync)?;
    if !mirror.resynced() {
        return Err(CommandFault::Read(UnreadFault::NotResynced));
    }
    Ok(Way::Resynced)
}

/// How an array is read that may not be resynced before.
pub(crate) fn way_as_it_is<D: Device + Drop>(
    mirror: &Mirror<D>,
    sector: u64,
    count: u64,
) -> Result<Way, CommandFault>
    ensures gives { MatchResult result
        (λ way. IsReadyTo true sector count mirror.now way mirror.now)
        (RefusesReady true sector count mirror.now mirror.now) }
    ensures may { IfOk result (λ way. MayReadBy way mirror.now.array sector count) }
    ensures fits { IfOk result (λ _. sector + count < 2 ^ 64) }
{
    check_range(mirror, sector, count).map_err(CommandFault::Read)?;
    if mirror.resynced() {
        return Ok(Way::Resynced);
    }
    if !mirror.degraded() {
        return Err(CommandFault::Read(UnreadFault::NotResynced));
    }
    Ok(Way::Unresynced)
}

// Whether the mirror runs, and the array has these sectors.
fn check_range<D: Device + Drop>(
    mirror: &Mirror<D>,
    sector: u64,
    count: u64,
) -> Result<(), UnreadFault>
    ensures may { MatchResult result
        (λ _. MayReadArray mirror.now.array sector count)
        (RefusesRange sector count mirror.now mirror.now) }
    ensures fits { IfOk result (λ _. sector + count < 2 ^ 64) }
{
    if mirror.halted() {
        return Err(UnreadFault::Halted);
    }
    let size = mirror.chunks().size;
    if count == 0 || count > size || sector > size - count {
        return Err(UnreadFault::OutOfRange);
    }
    Ok(())
}
