// The object of a bitmap as it stands, though it may be none.
ghost use Rattle.std.specs.Prelude.{◌≡◌, ◌≤◌, ◌++◌, codes, false, map};
ghost use Rattle.std.specs.List.{filter};
ghost use Rattle.serde_json.specs.Written.{compact_text};
ghost use Rattle.md_raw_reports.specs.BitmapFields.{bitmap_fault_stands};
ghost use Rattle.md_streams.specs.Sink.{PutsOrFails};
ghost use Rattle.md_report.specs.AsJson.Objects.{elements_text, later_text, object_line, next_text, whole};
ghost use Rattle.md_raw_reports.specs.RawJson.RawBitmap.{bitmap_rows, header_fault_value, header_faults, header_fields, lost_count, lost_of, lost_sector, raw_mark_fields, part_fields, raw_bitmap_object, super_fault_fields};
ghost use Rattle.md_raw_reports.specs.RawJson.RawFields.{row_field};

use crate::bitmap_fields::{BITMAP_FAULTS, BITMAP_FIELDS, bitmap_fault_name, bitmap_fault_stands};
use crate::raw_bitmap::{CountedMarks, RawBitmap, UnreadMarks};
use crate::raw_json::raw_fields::{next_fields, stands_before, text_where};
use crate::raw_json::raw_super_object::{next_faults, unread};
use md_bitmap::BitmapFault;
use md_report::as_json::values::{close, next_key, next_null, next_number, open};
use md_streams::{Sink, SinkFault};

/// Writes a bitmap as it stands as an object, alone in its line, though it or the superblock that names its place may be refused, and
/// though only the first so many sectors of the superblock could be read: what could not be, the faults of either that stand, the
/// fields of the header, and how many chunks are marked, as far as that could be read. It takes no memory, and fails only where
/// the sink has failed.
pub fn raw_bitmap_json<S: Sink>(
    out: &mut S,
    read: u32,
    superblock: &[u8; 4096],
    bitmap: &RawBitmap,
) -> Result<(), SinkFault>
    requires { read ≤ 8 }
    ensures { PutsOrFails S.contents S.failed out.old out.new
        (object_line (raw_bitmap_object read superblock.now bitmap.now)) result }
{
    open(out, "examine-bitmap --all")?;
    unread(out, read)?;
    super_faults(out, read, superblock)?;
    part(out, bitmap)?;
    close(out)?;
    Ok(())
}

/// The faults of the superblock, where a sector of it could be read.
#[tactic(auto, unfolding(crate::specs::RawJson::RawBitmap::super_fault_fields, md_report::specs::AsJson::Objects::later_text), using(md_streams::proofs::Puts::puts_then))]
pub(crate) fn super_faults<S: Sink>(
    out: &mut S,
    read: u32,
    superblock: &[u8; 4096],
) -> Result<(), SinkFault>
    requires { read ≤ 8 }
    ensures { PutsOrFails S.contents S.failed out.old out.new
        (later_text (super_fault_fields read superblock.now)) result }
{
    if read == 0 {
        return Ok(());
    }
    next_faults(out, "super_faults", read, superblock)?;
    Ok(())
}

#[tactic(auto, unfolding(crate::specs::RawJson::RawBitmap::part_fields, md_report::specs::AsJson::Objects::later_text), using(md_streams::proofs::Puts::puts_then))]
fn part<S: Sink>(out: &mut S, bitmap: &RawBitmap) -> Result<(), SinkFault>
    ensures { PutsOrFails S.contents S.failed out.old out.new (later_text (part_fields bitmap.now)) result }
{
    match bitmap {
        RawBitmap::Unplaced => Ok(()),
        RawBitmap::Unreadable(sector) => {
            next_number(out, "bitmap_unreadable_at", *sector)?;
            Ok(())
        }
        RawBitmap::Read(sector, marks) => read_part(out, sector, *marks),
    }
}

// What the first sector says, and the marks.
fn read_part<S: Sink>(
    out: &mut S,
    sector: &[u8; 512],
    marks: Option<CountedMarks>,
) -> Result<(), SinkFault>
    ensures { PutsOrFails S.contents S.failed out.old out.new
        (later_text (header_fields sector.now marks ++ (map (row_field sector.now) bitmap_rows ++ raw_mark_fields marks))) result }
{
    header(out, sector, marks)?;
    next_fields(out, sector, &BITMAP_FIELDS)?;
    marks_part(out, marks)?;
    Ok(())
}

fn header<S: Sink>(
    out: &mut S,
    sector: &[u8; 512],
    marks: Option<CountedMarks>,
) -> Result<(), SinkFault>
    ensures { PutsOrFails S.contents S.failed out.old out.new (later_text (header_fields sector.now marks)) result }
{
    next_lost(out, marks)?;
    faults(out, sector)?;
    Ok(())
}

// The first sector of the bitmap that could not be read.
fn next_lost<S: Sink>(out: &mut S, marks: Option<CountedMarks>) -> Result<(), SinkFault>
    ensures { PutsOrFails S.contents S.failed out.old out.new
        (next_text (codes "bitmap_unreadable_at") (compact_text (lost_of marks))) result }
{
    match marks {
        None => next_null(out, "bitmap_unreadable_at"),
        Some(marks) => lost_sector(out, marks.unread),
    }
}

fn lost_sector<S: Sink>(out: &mut S, unread: Option<UnreadMarks>) -> Result<(), SinkFault>
    ensures { PutsOrFails S.contents S.failed out.old out.new
        (next_text (codes "bitmap_unreadable_at") (compact_text (lost_sector unread))) result }
{
    match unread {
        None => next_null(out, "bitmap_unreadable_at"),
        Some(marks) => next_number(out, "bitmap_unreadable_at", marks.sector),
    }
}

fn faults<S: Sink>(out: &mut S, sector: &[u8; 512]) -> Result<(), SinkFault>
    ensures { PutsOrFails S.contents S.failed out.old out.new
        (next_text (codes "faults") (compact_text (header_faults sector.now))) result }
{
    next_key(out, "faults")?;
    out.put(b"[")?;
    fault_elements(out, sector, &BITMAP_FAULTS)?;
    out.put(b"]")?;
    Ok(())
}

fn fault_elements<S: Sink>(
    out: &mut S,
    sector: &[u8; 512],
    faults: &[BitmapFault],
) -> Result<(), SinkFault>
    ensures { PutsOrFails S.contents S.failed out.old out.new
        (elements_text header_fault_value false (filter (bitmap_fault_stands sector.now) faults.now)) result }
{
    let mut later = false;
    for fault in faults {
        let is_there = bitmap_fault_stands(sector, *fault);
        text_where(out, later, is_there, bitmap_fault_name(*fault))?;
        later = stands_before(later, is_there);
    }
    Ok(())
}

// The chunks, how many of them are marked, and of how many that could not be read.
fn marks_part<S: Sink>(out: &mut S, marks: Option<CountedMarks>) -> Result<(), SinkFault>
    ensures { PutsOrFails S.contents S.failed out.old out.new (later_text (raw_mark_fields marks)) result }
{
    match marks {
        None => no_marks(out),
        Some(marks) => counts(out, marks),
    }
}

fn no_marks<S: Sink>(out: &mut S) -> Result<(), SinkFault>
    ensures { PutsOrFails S.contents S.failed out.old out.new (later_text (raw_mark_fields None)) result }
{
    next_null(out, "chunks")?;
    next_null(out, "marked_chunks")?;
    next_null(out, "unread_chunks")?;
    Ok(())
}

fn counts<S: Sink>(out: &mut S, marks: CountedMarks) -> Result<(), SinkFault>
    ensures { PutsOrFails S.contents S.failed out.old out.new (later_text (raw_mark_fields (Some marks))) result }
{
    next_number(out, "chunks", marks.chunks)?;
    next_number(out, "marked_chunks", marks.marked)?;
    next_lost_chunks(out, marks.unread)?;
    Ok(())
}

fn next_lost_chunks<S: Sink>(out: &mut S, unread: Option<UnreadMarks>) -> Result<(), SinkFault>
    ensures { PutsOrFails S.contents S.failed out.old out.new
        (next_text (codes "unread_chunks") (compact_text (whole (lost_count unread)))) result }
{
    next_number(out, "unread_chunks", count_of(unread))
}

fn count_of(unread: Option<UnreadMarks>) -> u32
    ensures { result ≡ lost_count unread }
{
    match unread {
        None => 0,
        Some(marks) => marks.chunks,
    }
}
