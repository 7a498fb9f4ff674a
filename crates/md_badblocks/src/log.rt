// The log of a set of bad sectors, as it stands on the device.
ghost use Rattle.std.specs.Prelude.{◌≡◌, ◌+◌, ◌*◌, ◌/◌, ◌%◌, ◌<◌, ◌≤◌, ◌^◌, ◌↔◌, ◌++◌, List, length, take, IfOk, IfErr, OnOk, OnErr, IsOk, IsErrOf};
ghost use Rattle.std.specs.List.{flat_map};
ghost use Rattle.byteorder.specs.Endian.{little_bytes};
ghost use Rattle.md_badblocks.specs.declared.log.LogFault.TheVariants.{NoMemory};
ghost use Rattle.md_badblocks.specs.declared.run.Run.{Run as RunValue};
ghost use Rattle.md_badblocks.specs.Runs.{IsCanonical, entry_count, entries_needed};
ghost use Rattle.md_badblocks.specs.Log.{IsReadAs, run_of, entry_at, entries_of, log_bytes};

use crate::bad_set::{BadSet, ENTRY_SECTORS};
use crate::run::Run;
use byteorder::{ByteOrder, LittleEndian};
use md_format::u64_at;
use std::alloc::{AllocError, Global};
use thiserror::Error;

/// The most that a log's units may be shifted by.
const MAX_SHIFT: u8 = 9;

/// How many bits of an entry, the low ones, are its length.
const LEN_BITS: u32 = 10;

/// The bits of an entry that are its length.
const LEN_MASK: u64 = 0x3ff;

/// Why a log is not read.
#[derive(Clone, Copy, Debug, PartialEq, Eq, Error)]
pub enum LogFault {
    #[error("Shift")]
    Shift,
    #[error("NoMemory")]
    NoMemory,
}

impl From<AllocError> for LogFault {
    ghost from_gives = { λ _ e. e ≡ NoMemory };

    fn from(_: AllocError) -> LogFault {
        LogFault::NoMemory
    }
}

/// A log has room for fewer entries than the set takes.
#[derive(Clone, Copy, Debug, PartialEq, Eq, Error)]
#[error("LogFull {needed} {room}")]
pub struct LogFull {
    pub needed: u64,
    pub room: u64,
}

impl BadSet {
    /// Reads a log whose entries are in units of `2^shift` sectors, up to an entry of all ones or the
    /// end. Bytes past the last whole entry are ignored.
    pub fn from_log(alloc: Global, bytes: &[u8], shift: u8) -> Result<Self, LogFault>
        ensures shift { IsErrOf result LogFault.Shift ↔ (9 < shift) }
        ensures ok { IfOk result (λ set. IsReadAs shift bytes.now set) }
    {
        if shift > MAX_SHIFT {
            return Err(LogFault::Shift);
        }
        let mut set = BadSet::new(alloc);
        for place in 0..bytes.len() / 8 {
            let entry = u64_at(bytes, 8 * place);
            if entry == u64::MAX {
                return Ok(set);
            }
            let run = run_of(entry, shift);
            set.add(run.start, run.len)?;
        }
        Ok(set)
    }

    /// Writes the log of the set over a whole area, or nothing where it has too little room.
    pub fn to_log(&self, buf: &mut [u8]) -> Result<(), LogFull>
        requires { length buf.old % 8 ≡ 0 }

        ensures ok { OnOk result (buf.new ≡ log_bytes self.now (length buf.old / 8)) }
        ensures fits { IsOk result ↔ (entries_needed self.now ≤ length buf.old / 8) }
        ensures full { IfErr result (λ e. (e.needed ≡ entries_needed self.now)
            × (e.room ≡ length buf.old / 8)) }
        ensures err { OnErr result (buf.new ≡ buf.old) }

        // The log reads as the set, and as no other.
        ensures read_back { OnOk result (IsReadAs 0 buf.new self.now) }
        ensures alone { OnOk result ((other : List RunValue) → IsReadAs 0 buf.new other → other ≡ self.now) }
    {
        let needed = self.entries_needed();
        let room = (buf.len() / 8) as u64;
        if needed > room {
            return Err(LogFull { needed, room });
        }
        write_runs(buf, self.runs());
        Ok(())
    }
}

/// The run that an entry names.
fn run_of(entry: u64, shift: u8) -> Run
    requires { shift ≤ 9 }
    ensures { result ≡ run_of shift entry }
{
    Run {
        start: (entry >> LEN_BITS) << shift,
        len: (entry & LEN_MASK) << shift,
    }
}

/// Entry `k` of a run.
fn entry_at(run: Run, k: u64) -> u64
    requires within { 512 * k < run.len }
    requires fits { run.start + run.len ≤ 2 ^ 54 }
    ensures { result ≡ entry_at run k }
{
    let done = k * ENTRY_SECTORS;
    let start = run.start + done;
    let len = (run.len - done).min(ENTRY_SECTORS);
    (start << LEN_BITS) | len
}

/// Writes the entry at a place, counted in entries.
fn write_entry(buf: &mut [u8], place: usize, entry: u64)
    requires { 8 * (place + 1) ≤ length buf.old }
    ensures { take (8 * (place + 1)) buf.new ≡ take (8 * place) buf.old ++ little_bytes 8 entry }
{
    LittleEndian::write_u64(&mut buf[8 * place..], entry);
}

/// Writes the entries of a run from a place on. The result is the place after the last.
fn write_run(buf: &mut [u8], place: usize, run: Run) -> usize
    requires room { 8 * (place + entry_count run) ≤ length buf.old }
    requires fits { run.start + run.len ≤ 2 ^ 54 }
    ensures next { result ≡ place + entry_count run }
    ensures written { take (8 * result) buf.new
        ≡ take (8 * place) buf.old ++ flat_map (little_bytes 8) (entries_of run) }
{
    let count = run.len.div_ceil(ENTRY_SECTORS);
    for k in 0..count {
        write_entry(buf, place + k as usize, entry_at(run, k));
    }
    place + count as usize
}

/// Writes the entries of the runs, and all ones after them.
fn write_runs(buf: &mut [u8], runs: &[Run])
    requires whole { length buf.old % 8 ≡ 0 }
    requires room { entries_needed runs.now ≤ length buf.old / 8 }
    requires canonical { IsCanonical runs.now }
    ensures { buf.new ≡ log_bytes runs.now (length buf.old / 8) }
{
    let mut place = 0;
    for run in runs {
        place = write_run(buf, place, *run);
    }
    buf[8 * place..].fill(0xff);
}
