// A bad block log as it stands, though it may be refused.
ghost use Rattle.std.specs.Prelude.{◌≤◌, ◌*◌, ◌+◌, length};
ghost use Rattle.std.specs.List.{flat_map};
ghost use Rattle.md_streams.specs.Sink.{PutsOrFails};
ghost use Rattle.md_raw_reports.specs.LogFields.{entries_there, entry_line, entry_text, log_all_text, lost_log_text, shift_fault, log_told_text};

use crate::fields::{Field, Kind, field_lines};
use crate::super_faults::super_fault_lines;
use crate::super_fields::{unread_line, unreadable_line};
use md_examine::{line, right_aligned_number};
use md_format::{u8_at, u64_at};
use md_streams::{Sink, SinkFault, number_after};

/// The most that a log's units may be shifted by.
const MAX_SHIFT: u8 = 9;

/// How many bits of an entry, the low ones, are its length.
const LEN_BITS: u32 = 10;

/// The bits of an entry that are its length.
const LEN_MASK: u64 = 0x3ff;

/// The fields of a superblock that say where the log is, and what its entries count in.
pub const LOG_FIELDS: [Field; 3] = [
    Field {
        label: "Log Shift      ",
        name: "log_shift",
        kind: Kind::Byte,
        at: 185,
        unit: "",
    },
    Field {
        label: "Log Size       ",
        name: "log_size",
        kind: Kind::Half,
        at: 186,
        unit: " sectors",
    },
    Field {
        label: "Log Offset     ",
        name: "log_offset",
        kind: Kind::Signed,
        at: 188,
        unit: " sectors from superblock",
    },
];

/// Writes the report of a bad block log as it stands, though it or the superblock that names its place may be refused, and though
/// only the first so many sectors of the superblock could be read, or none of the log, from this sector on: what could not be, a
/// line for each fault of either that stands, the fields of the superblock that tell of the log, and a line for each entry that
/// is not all ones, by its place: its first sector and its length, both in units of 2^shift sectors. It takes no memory,
/// and fails only where the sink has failed.
pub fn examine_badblocks_all<S: Sink>(
    out: &mut S,
    read: u32,
    superblock: &[u8; 4096],
    lost: Option<u64>,
    area: &[u8],
) -> Result<(), SinkFault>
    requires { read ≤ 8 }
    ensures { PutsOrFails S.contents S.failed out.old out.new (log_all_text read superblock.now lost area.now) result }
{
    unread_line(out, read)?;
    super_fault_lines(out, "Super Fault    ", read, superblock)?;
    superblock_part(out, read, superblock)?;
    lost_line(out, lost)?;
    entry_lines(out, area)?;
    Ok(())
}

// What the superblock says of the log, where it could be read.
#[tactic(auto, unfolding(crate::specs::LogFields::log_told_text), using(md_streams::proofs::Puts::puts_then))]
fn superblock_part<S: Sink>(
    out: &mut S,
    read: u32,
    superblock: &[u8; 4096],
) -> Result<(), SinkFault>
    ensures { PutsOrFails S.contents S.failed out.old out.new (log_told_text read superblock.now) result }
{
    if read == 0 {
        return Ok(());
    }
    shift_line(out, superblock)?;
    field_lines(out, superblock, &LOG_FIELDS)?;
    Ok(())
}

fn lost_line<S: Sink>(out: &mut S, lost: Option<u64>) -> Result<(), SinkFault>
    ensures { PutsOrFails S.contents S.failed out.old out.new (lost_log_text lost) result }
{
    match lost {
        Some(sector) => unreadable_line(out, sector),
        None => Ok(()),
    }
}

fn shift_line<S: Sink>(out: &mut S, superblock: &[u8; 4096]) -> Result<(), SinkFault>
    ensures { PutsOrFails S.contents S.failed out.old out.new (shift_fault superblock.now) result }
{
    if u8_at(superblock, 185) > MAX_SHIFT {
        line(out, "Fault          ", b"Shift")
    } else {
        Ok(())
    }
}

fn entry_lines<S: Sink>(out: &mut S, area: &[u8]) -> Result<(), SinkFault>
    ensures { PutsOrFails S.contents S.failed out.old out.new (flat_map (entry_text area.now) (entries_there area.now)) result }
{
    let count = area.len() / 8;
    for place in 0..count {
        entry(out, area, place)?;
    }
    Ok(())
}

fn entry<S: Sink>(out: &mut S, area: &[u8], place: usize) -> Result<(), SinkFault>
    requires { 8 * place + 8 ≤ length area.now }
    ensures { PutsOrFails S.contents S.failed out.old out.new (entry_text area.now place) result }
{
    let entry = u64_at(area, 8 * place);
    if entry == u64::MAX {
        Ok(())
    } else {
        run_of_entry(out, place, entry >> LEN_BITS, entry & LEN_MASK)
    }
}

#[tactic(auto, unfolding(crate::specs::LogFields::entry_line), using(md_streams::proofs::Puts::puts_then))]
fn run_of_entry<S: Sink>(out: &mut S, place: usize, start: u64, len: u64) -> Result<(), SinkFault>
    ensures { PutsOrFails S.contents S.failed out.old out.new (entry_line place start len) result }
{
    right_aligned_number(out, 12, start)?;
    number_after(out, b" for ", len)?;
    number_after(out, b" units, entry ", place)?;
    out.put(b"\n")?;
    Ok(())
}
