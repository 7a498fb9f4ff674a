// An array as a store of sectors that are read and written.
ghost use Rattle.std.specs.Prelude.{◌≡◌, [], ◌++◌, ◌*◌, ◌+◌, IfErr, IfOk, MatchResult, OnErr, OnOk, length, true};
ghost use Rattle.md_inflight.specs.Requests.Pending.{PendingView};
ghost use Rattle.md_state.specs.Requests.{IsPending};
ghost use Rattle.md_array.specs.Consistency.{IsConsistent};
ghost use Rattle.md_nbd.specs.Export.{sector_bytes};
ghost use Rattle.md_nbd.specs.declared.server.store.StoreFault.TheVariants.{Halted as HaltedFault, NoMemory as NoMemoryFault};
ghost use Rattle.md_serve_commands.specs.Waiting.{ClearsMarks, FailsToClear, FailsWaitingFor, HasJoined, IsFreshWriter, RefusesWaiting, WritesWaiting, StillWaits, WaitsWithin, unread_fault, unwritten_fault};

use md_array::{BeginFault, Mirror};
use md_device::Device;
use md_metadata::{StopFault, stop};
use md_nbd::{Store, StoreFault};
use md_read::{UnreadFault, read};
use md_write::write;
use std::alloc::{AllocError, Global};

// The most bytes that wait, and above which a write is done at once: each costs a wait for each member's disk, which is small beside
// the time that so many bytes take.
const MOST_WAITING: usize = 0x1000000;

// How many flushes after writes may leave the marks. To clear and to store them anew takes some six times as long as a small write.
const MOST_KEPT: u32 = 63;

/// Memory for what may wait.
pub(crate) fn room_to_wait(alloc: Global) -> Result<Vec<u8>, AllocError>
    ensures { IfOk result (λ run. run.items ≡ []) }
{
    Vec::with_capacity(alloc, MOST_WAITING)
}

/// An array that is served, by how many sectors it has, and the bytes of writes that wait because they lie together.
#[derive(Drop)]
pub(crate) struct ArrayWriter {
    pub(crate) sectors: u64,
    /// The first sector of what waits.
    pub(crate) start: u64,
    /// What waits.
    pub(crate) run: Vec<u8>,
    /// Whether something was written since the last flush.
    pub(crate) wrote: bool,
    /// How many flushes left the marks since they were cleared.
    pub(crate) kept: u32,
}

impl ArrayWriter {
    /// Nothing waits; `run` has the memory for what will.
    pub(crate) fn new(run: Vec<u8>, sectors: u64) -> ArrayWriter
        requires { run.items ≡ [] }
        ensures { IsFreshWriter sectors result }
    {
        ArrayWriter {
            sectors,
            start: 0,
            run,
            wrote: false,
            kept: 0,
        }
    }

    // Whether so many bytes from this sector on lie behind what waits, and may wait with it.
    fn is_followed(&self, sector: u64, len: usize) -> bool
        requires waits { WaitsWithin self.now }
        ensures { result ≡ true
            → sector_bytes * sector ≡ sector_bytes * self.now.start + length self.now.run.items }
    {
        let waiting = self.run.len();
        waiting > 0
            && waiting <= MOST_WAITING
            && len <= MOST_WAITING - waiting
            && self.start + (waiting / 512) as u64 == sector
    }

    // Puts these bytes behind what waits. There is memory for as many as may wait.
    fn join(&mut self, bytes: &[u8]) -> Result<(), StoreFault>
        ensures joined { OnOk result (HasJoined bytes.now self.old self.new) }
        ensures waits { OnErr result (StillWaits self.old self.new) }
        ensures why { IfErr result (λ why. why ≡ NoMemoryFault) }
        ensures size { self.new.sectors ≡ self.old.sectors }
    {
        self.wrote = true;
        match self.run.extend_from_slice(bytes) {
            Ok(()) => Ok(()),
            Err(AllocError) => Err(StoreFault::NoMemory),
        }
    }

    /// Writes what waits, by one write: it is on stable storage of each member in sync then. Else it waits still.
    pub(crate) fn write_waiting<D: Device + Drop>(
        &mut self,
        mirror: &mut Mirror<D>,
    ) -> Result<(), BeginFault>
        requires waits { WaitsWithin self.old }
        requires sound { IsConsistent mirror.old }
        ensures gives { MatchResult result
            (λ _. WritesWaiting self.old mirror.old mirror.new)
            (RefusesWaiting self.old mirror.old mirror.new) }
        ensures none { OnOk result (self.new.run.items ≡ []) }
        ensures still { OnErr result (StillWaits self.old self.new) }
        ensures size { self.new.sectors ≡ self.old.sectors }
        ensures start { self.new.start ≡ self.old.start }
        ensures sound { IsConsistent mirror.new }
        ensures pending { (p : PendingView) → IsPending mirror.old.array p → IsPending mirror.new.array p }
    {
        if self.run.is_empty() {
            return Ok(());
        }
        write(mirror, self.start, &self.run)?;
        self.run.clear();
        Ok(())
    }

    // Writes what waits, before what a client asks for.
    fn write_first<D: Device + Drop>(&mut self, mirror: &mut Mirror<D>) -> Result<(), StoreFault>
        requires waits { WaitsWithin self.old }
        requires sound { IsConsistent mirror.old }
        ensures gives { MatchResult result
            (λ _. WritesWaiting self.old mirror.old mirror.new)
            (FailsWaitingFor (self.old, mirror.old) (self.new, mirror.new)) }
        ensures none { OnOk result (self.new.run.items ≡ []) }
        ensures still { OnErr result (StillWaits self.old self.new) }
        ensures size { self.new.sectors ≡ self.old.sectors }
        ensures start { self.new.start ≡ self.old.start }
        ensures sound { IsConsistent mirror.new }
    {
        let Err(fault) = self.write_waiting(mirror) else {
            return Ok(());
        };
        Err(unwritten(fault))
    }

    // Whether a flush may leave the marks, which it notes then.
    fn keeps_marks(&mut self) -> bool
        ensures waits { StillWaits self.old self.new }
        ensures size { self.new.sectors ≡ self.old.sectors }
    {
        let keeps = self.wrote && self.kept < MOST_KEPT;
        self.wrote = false;
        self.kept = if keeps { self.kept + 1 } else { 0 };
        keeps
    }
}

// Why what was to be written is not, or not surely.
fn unwritten(fault: BeginFault) -> StoreFault
    ensures { result ≡ unwritten_fault fault }
{
    match fault {
        BeginFault::Halted => StoreFault::Halted,
        BeginFault::NoMemory => StoreFault::NoMemory,
        _ => StoreFault::NotWritten,
    }
}

// Why sectors are not read.
fn unread(fault: UnreadFault) -> StoreFault
    ensures { result ≡ unread_fault fault }
{
    match fault {
        UnreadFault::Halted => StoreFault::Halted,
        UnreadFault::Unreadable(sector) => StoreFault::Lacks(sector),
        _ => StoreFault::NotRead,
    }
}

// Clears the marks of what was written, which stands. Where they aren't cleared it stands all the same, unless the mirror is halted.
fn clear_marks<D: Device + Drop>(mirror: &mut Mirror<D>) -> Result<(), StoreFault>
    requires sound { IsConsistent mirror.old }
    ensures gives { MatchResult result
        (λ _. ClearsMarks mirror.old mirror.new)
        (λ _. FailsToClear mirror.old mirror.new) }
    ensures why { IfErr result (λ why. why ≡ HaltedFault) }
    ensures sound { IsConsistent mirror.new }
{
    if mirror.halted() {
        return Err(StoreFault::Halted);
    }
    match stop(mirror) {
        Ok(()) => Ok(()),
        Err(StopFault::Halted) => Err(StoreFault::Halted),
        Err(_) => Ok(()),
    }
}

impl<D: Device + Drop> Store<Mirror<D>> for ArrayWriter {
    ghost use Rattle.md_array.specs.Consistency.{IsConsistent};
    ghost use Rattle.md_serve_commands.specs.Waiting.{FailsToFlush, FailsToRead, FailsToTake, FlushesAll, ReadsBehind, RestsAll, TakesWrite, WaitsWithin, WhyUnflushed, WhyUnread, WhyUntaken};

    ghost is_sound = { λ p. IsConsistent p.1 × WaitsWithin p.0 };

    ghost sectors = { λ p. p.0.sectors };

    ghost reads = { λ p q sector bytes. ReadsBehind p q sector bytes };

    ghost unread = { λ p q sector sectors. FailsToRead p q sector sectors };

    ghost why_unread = { λ p q sector sectors why. WhyUnread p q sector sectors why };

    ghost writes = { λ p q sector bytes through. TakesWrite p q sector bytes through };

    ghost unwritten = { λ p q sector bytes. FailsToTake p q sector bytes };

    ghost why_unwritten = { λ p q sector bytes why. WhyUntaken p q sector bytes why };

    ghost flushes = { λ p q. FlushesAll p q };

    ghost unflushed = { λ p q. FailsToFlush p q };

    ghost why_unflushed = { λ p q why. WhyUnflushed p q why };

    ghost rests = { λ p q. RestsAll p q };

    // What waits is written first.
    fn read(
        &mut self,
        lent: &mut Mirror<D>,
        sector: u64,
        buf: &mut [u8],
    ) -> Result<(), StoreFault> {
        self.write_first(lent)?;
        let Err(fault) = read(lent, sector, buf) else {
            return Ok(());
        };
        Err(unread(fault))
    }

    // Bytes that lie behind what waits wait with it; else that is written first.
    fn write(
        &mut self,
        lent: &mut Mirror<D>,
        sector: u64,
        bytes: &[u8],
        through: bool,
    ) -> Result<(), StoreFault> {
        if lent.halted() {
            return Err(StoreFault::Halted);
        }
        if !through && self.is_followed(sector, bytes.len()) {
            return self.join(bytes);
        }
        self.write_first(lent)?;
        if through || bytes.len() > MOST_WAITING {
            self.wrote = true;
            let Err(fault) = write(lent, sector, bytes) else {
                return Ok(());
            };
            return Err(unwritten(fault));
        }
        self.start = sector;
        self.join(bytes)
    }

    // What waits is written, and the marks are cleared now and then: where nothing was written since the last flush, and once after
    // each 64 that came after writes.
    fn flush(&mut self, lent: &mut Mirror<D>) -> Result<(), StoreFault> {
        if lent.halted() {
            return Err(StoreFault::Halted);
        }
        self.write_first(lent)?;
        if self.keeps_marks() {
            return Ok(());
        }
        clear_marks(lent)
    }

    // As a flush that clears the marks.
    fn rest(&mut self, lent: &mut Mirror<D>) -> Result<(), StoreFault> {
        if lent.halted() {
            return Err(StoreFault::Halted);
        }
        self.write_first(lent)?;
        self.wrote = false;
        self.kept = 0;
        clear_marks(lent)
    }
}
