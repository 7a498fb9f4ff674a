// The object of a bad block log as it stands, though it may be none.
ghost use Rattle.std.specs.Prelude.{◌≡◌, ◌≤◌, ◌<◌, ◌+◌, ◌*◌, ◌/◌, ◌%◌, ◌++◌, [], codes, false, if◌then◌else◌, length, map, nat_lt};
ghost use Rattle.std.specs.List.{filter};
ghost use Rattle.serde_json.specs.Written.{comma_if, compact_text};
ghost use Rattle.md_format.specs.Fields.{number_at};
ghost use Rattle.md_raw_reports.specs.LogFields.{entries_there};
ghost use Rattle.md_streams.specs.Sink.{PutsOrFails};
ghost use Rattle.md_report.specs.AsJson.WholeArray.MemberObjects.{number_or_null};
ghost use Rattle.md_report.specs.AsJson.Objects.{elements_text, later_text, object_line, next_text};
ghost use Rattle.md_raw_reports.specs.RawJson.RawFields.{row_field};
ghost use Rattle.md_raw_reports.specs.RawJson.RawLog.{area_fields, entry_list, entry_object, is_entry, log_rows, entry_number, raw_log_object, shift_fields, shift_list, told_fields};

use crate::log_fields::LOG_FIELDS;
use crate::raw_json::raw_bitmap_object::super_faults;
use crate::raw_json::raw_fields::{next_fields, stands_before, text_where};
use crate::raw_json::raw_super_object::unread;
use md_format::{u8_at, u64_at};
use md_report::as_json::values::{
    close, comma_if, next_key, next_null, next_number, open, open_number,
};
use md_streams::{Sink, SinkFault};

// The most that a log's units may be shifted by.
const MAX_SHIFT: u8 = 9;

// An entry is its first unit, by so much, and its length.
const UNIT: u64 = 1024;

/// Writes a bad block log as it stands as an object, alone in its line, though it or the superblock that names its place may be
/// refused, and though only the first so many sectors of the superblock could be read, or none of the log, from this sector on:
/// what could not be, the faults of either that stand, the fields of the superblock that tell of the log, and each entry that is
/// not all ones, by its place. It takes no memory, and fails only where the sink has failed.
pub fn raw_log_json<S: Sink>(
    out: &mut S,
    read: u32,
    superblock: &[u8; 4096],
    lost: Option<u64>,
    area: &[u8],
) -> Result<(), SinkFault>
    requires { read ≤ 8 }
    ensures { PutsOrFails S.contents S.failed out.old out.new
        (object_line (raw_log_object read superblock.now lost area.now)) result }
{
    open(out, "examine-badblocks --all")?;
    unread(out, read)?;
    super_faults(out, read, superblock)?;
    superblock_part(out, read, superblock)?;
    entries(out, lost, area)?;
    close(out)?;
    Ok(())
}

// What the superblock says of the log, where it could be read.
#[tactic(auto, unfolding(crate::specs::RawJson::RawLog::told_fields, md_report::specs::AsJson::Objects::later_text), using(md_streams::proofs::Puts::puts_then))]
fn superblock_part<S: Sink>(
    out: &mut S,
    read: u32,
    superblock: &[u8; 4096],
) -> Result<(), SinkFault>
    ensures { PutsOrFails S.contents S.failed out.old out.new (later_text (told_fields read superblock.now)) result }
{
    if read == 0 {
        return Ok(());
    }
    said(out, superblock)
}

fn said<S: Sink>(out: &mut S, superblock: &[u8; 4096]) -> Result<(), SinkFault>
    ensures { PutsOrFails S.contents S.failed out.old out.new
        (later_text (shift_fields superblock.now ++ map (row_field superblock.now) log_rows)) result }
{
    faults(out, superblock)?;
    next_fields(out, superblock, &LOG_FIELDS)?;
    Ok(())
}

fn faults<S: Sink>(out: &mut S, superblock: &[u8; 4096]) -> Result<(), SinkFault>
    ensures { PutsOrFails S.contents S.failed out.old out.new (later_text (shift_fields superblock.now)) result }
{
    next_shift(out, superblock)?;
    Ok(())
}

fn next_shift<S: Sink>(out: &mut S, superblock: &[u8; 4096]) -> Result<(), SinkFault>
    ensures { PutsOrFails S.contents S.failed out.old out.new
        (next_text (codes "faults") (compact_text (shift_list superblock.now))) result }
{
    next_key(out, "faults")?;
    out.put(b"[")?;
    text_where(out, false, is_far_shifted(superblock), "Shift")?;
    out.put(b"]")?;
    Ok(())
}

fn is_far_shifted(superblock: &[u8; 4096]) -> bool
    ensures { result ≡ nat_lt 9 (number_at 1 185 superblock.now) }
{
    u8_at(superblock, 185) > MAX_SHIFT
}

fn entries<S: Sink>(out: &mut S, lost: Option<u64>, area: &[u8]) -> Result<(), SinkFault>
    ensures { PutsOrFails S.contents S.failed out.old out.new (later_text (area_fields lost area.now)) result }
{
    next_lost(out, lost)?;
    next_entries(out, area)?;
    Ok(())
}

fn next_lost<S: Sink>(out: &mut S, lost: Option<u64>) -> Result<(), SinkFault>
    ensures { PutsOrFails S.contents S.failed out.old out.new
        (next_text (codes "log_unreadable_at") (compact_text (number_or_null lost))) result }
{
    match lost {
        Some(sector) => next_number(out, "log_unreadable_at", sector),
        None => next_null(out, "log_unreadable_at"),
    }
}

fn next_entries<S: Sink>(out: &mut S, area: &[u8]) -> Result<(), SinkFault>
    ensures { PutsOrFails S.contents S.failed out.old out.new
        (next_text (codes "entries") (compact_text (entry_list area.now))) result }
{
    next_key(out, "entries")?;
    out.put(b"[")?;
    entry_elements(out, area)?;
    out.put(b"]")?;
    Ok(())
}

fn entry_elements<S: Sink>(out: &mut S, area: &[u8]) -> Result<(), SinkFault>
    ensures { PutsOrFails S.contents S.failed out.old out.new
        (elements_text (entry_object area.now) false (filter (is_entry area.now) (entries_there area.now))) result }
{
    let mut later = false;
    let count = area.len() / 8;
    for place in 0..count {
        let is_there = is_entry(area, place);
        entry_where(out, later, is_there, area, place)?;
        later = stands_before(later, is_there);
    }
    Ok(())
}

fn is_entry(area: &[u8], place: usize) -> bool
    requires { 8 * place + 8 ≤ length area.now }
    ensures { result ≡ is_entry area.now place }
{
    u64_at(area, 8 * place) != u64::MAX
}

#[tactic(auto, using(md_streams::proofs::Puts::puts_then))]
fn entry_where<S: Sink>(
    out: &mut S,
    later: bool,
    is_there: bool,
    area: &[u8],
    place: usize,
) -> Result<(), SinkFault>
    requires { 8 * place + 8 ≤ length area.now }
    ensures { PutsOrFails S.contents S.failed out.old out.new
        (if is_there then (comma_if later ++ compact_text (entry_object area.now place)) else []) result }
{
    if !is_there {
        return Ok(());
    }
    out.put(comma_if(later))?;
    entry(out, area, place)?;
    Ok(())
}

fn entry<S: Sink>(out: &mut S, area: &[u8], place: usize) -> Result<(), SinkFault>
    requires { 8 * place + 8 ≤ length area.now }
    ensures { PutsOrFails S.contents S.failed out.old out.new (compact_text (entry_object area.now place)) result }
{
    let entry = u64_at(area, 8 * place);
    open_number(out, "entry", place)?;
    next_number(out, "start", entry / UNIT)?;
    next_number(out, "length", entry % UNIT)?;
    out.put(b"}")?;
    Ok(())
}
