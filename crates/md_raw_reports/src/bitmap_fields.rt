// The header of a bitmap as it stands, though it may be none.
ghost use Rattle.std.specs.Prelude.{◌≡◌, ◌≤◌, ◌↔◌, length, true};
ghost use Rattle.std.specs.List.{flat_map};
ghost use Rattle.md_streams.specs.Sink.{PutsOrFails};
ghost use Rattle.md_raw_reports.specs.BitmapFields.{IsBitmapFaultSeen, bitmap_all_text, counted_text, bitmap_fault_name, bitmap_fault_text, faults, header_text, part_text, read_text, bitmap_fault_stands, unread_marks_text};

use crate::fields::{Field, Kind, field_lines};
use crate::raw_bitmap::{CountedMarks, RawBitmap, UnreadMarks};
use crate::super_faults::super_fault_lines;
use crate::super_fields::{unread_line, unreadable_line};
use md_bitmap::{BitmapFault, has_few_chunks, is_chunk_size};
use md_examine::{line, marks_line, unit_line};
use md_format::{u32_at, u64_at};
use md_streams::{Sink, SinkFault};

const MAGIC: u32 = 0x6d74_6962;

const VERSION: u32 = 4;

/// Every field of `struct bitmap_super_s` of `md-bitmap.h` but for the padding, in its order.
pub const BITMAP_FIELDS: [Field; 13] = [
    Field {
        label: "Magic          ",
        name: "magic",
        kind: Kind::HexDigits,
        at: 0,
        unit: "",
    },
    Field {
        label: "Version        ",
        name: "version",
        kind: Kind::Word,
        at: 4,
        unit: "",
    },
    Field {
        label: "Array UUID     ",
        name: "array_uuid",
        kind: Kind::Id,
        at: 8,
        unit: "",
    },
    Field {
        label: "Events         ",
        name: "events",
        kind: Kind::Long,
        at: 24,
        unit: "",
    },
    Field {
        label: "Events Cleared ",
        name: "events_cleared",
        kind: Kind::Long,
        at: 32,
        unit: "",
    },
    Field {
        label: "Sync Size      ",
        name: "sync_size",
        kind: Kind::Long,
        at: 40,
        unit: " sectors",
    },
    Field {
        label: "State          ",
        name: "state",
        kind: Kind::Hex,
        at: 48,
        unit: "",
    },
    Field {
        label: "Chunk Size     ",
        name: "chunk_size",
        kind: Kind::Word,
        at: 52,
        unit: " bytes",
    },
    Field {
        label: "Daemon Sleep   ",
        name: "daemon_sleep",
        kind: Kind::Word,
        at: 56,
        unit: " seconds",
    },
    Field {
        label: "Write Behind   ",
        name: "write_behind",
        kind: Kind::Word,
        at: 60,
        unit: "",
    },
    Field {
        label: "Reserved       ",
        name: "reserved",
        kind: Kind::Word,
        at: 64,
        unit: " sectors",
    },
    Field {
        label: "Nodes          ",
        name: "nodes",
        kind: Kind::Word,
        at: 68,
        unit: "",
    },
    Field {
        label: "Cluster Name   ",
        name: "cluster_name",
        kind: Kind::Name,
        at: 72,
        unit: "",
    },
];

/// The faults of a header, in the order in which it is refused by them.
pub const BITMAP_FAULTS: [BitmapFault; 4] = [
    BitmapFault::Magic,
    BitmapFault::Version,
    BitmapFault::ChunkSize,
    BitmapFault::TooManyChunks,
];

/// Writes the report of a bitmap as it stands, though it or the superblock that names its place may be refused, and though only
/// the first so many sectors of the superblock could be read: what could not be, a line for each fault of either that stands,
/// the fields of the header, and how many chunks are marked, as far as that could be read. It takes no memory, and fails only
/// where the sink has failed.
pub fn examine_bitmap_all<S: Sink>(
    out: &mut S,
    read: u32,
    superblock: &[u8; 4096],
    bitmap: &RawBitmap,
) -> Result<(), SinkFault>
    requires { read ≤ 8 }
    ensures { PutsOrFails S.contents S.failed out.old out.new (bitmap_all_text read superblock.now bitmap.now) result }
{
    unread_line(out, read)?;
    super_fault_lines(out, "Super Fault    ", read, superblock)?;
    part(out, bitmap)?;
    Ok(())
}

#[tactic(auto, unfolding(crate::specs::BitmapFields::part_text))]
fn part<S: Sink>(out: &mut S, bitmap: &RawBitmap) -> Result<(), SinkFault>
    ensures { PutsOrFails S.contents S.failed out.old out.new (part_text bitmap.now) result }
{
    match bitmap {
        RawBitmap::Unplaced => Ok(()),
        RawBitmap::Unreadable(sector) => unreadable_line(out, *sector),
        RawBitmap::Read(sector, marks) => read_part(out, sector, *marks),
    }
}

fn read_part<S: Sink>(
    out: &mut S,
    sector: &[u8; 512],
    marks: Option<CountedMarks>,
) -> Result<(), SinkFault>
    ensures { PutsOrFails S.contents S.failed out.old out.new (read_text sector.now marks) result }
{
    header(out, sector)?;
    count_lines(out, marks)?;
    Ok(())
}

// The header in the first sector, its faults first.
fn header<S: Sink>(out: &mut S, sector: &[u8; 512]) -> Result<(), SinkFault>
    ensures { PutsOrFails S.contents S.failed out.old out.new (header_text sector.now) result }
{
    fault_lines(out, sector, &BITMAP_FAULTS)?;
    field_lines(out, sector, &BITMAP_FIELDS)?;
    Ok(())
}

#[tactic(auto, unfolding(crate::specs::BitmapFields::counted_text))]
fn count_lines<S: Sink>(out: &mut S, marks: Option<CountedMarks>) -> Result<(), SinkFault>
    ensures { PutsOrFails S.contents S.failed out.old out.new (counted_text marks) result }
{
    match marks {
        None => Ok(()),
        Some(marks) => counts(out, marks),
    }
}

#[tactic(auto, unfolding(crate::specs::BitmapFields::counted_text), using(md_streams::proofs::Puts::puts_then))]
fn counts<S: Sink>(out: &mut S, marks: CountedMarks) -> Result<(), SinkFault>
    ensures { PutsOrFails S.contents S.failed out.old out.new (counted_text (Some marks)) result }
{
    marks_line(out, "Bitmap         ", marks.chunks, marks.marked)?;
    unread_marks(out, marks.unread)?;
    Ok(())
}

#[tactic(auto, unfolding(crate::specs::BitmapFields::unread_marks_text))]
fn unread_marks<S: Sink>(out: &mut S, unread: Option<UnreadMarks>) -> Result<(), SinkFault>
    ensures { PutsOrFails S.contents S.failed out.old out.new (unread_marks_text unread) result }
{
    match unread {
        None => Ok(()),
        Some(marks) => unread_from(out, marks),
    }
}

#[tactic(auto, unfolding(crate::specs::BitmapFields::unread_marks_text), using(md_streams::proofs::Puts::puts_then))]
fn unread_from<S: Sink>(out: &mut S, unread: UnreadMarks) -> Result<(), SinkFault>
    ensures { PutsOrFails S.contents S.failed out.old out.new (unread_marks_text (Some unread)) result }
{
    unit_line(out, "Unread         ", unread.chunks, b" chunks")?;
    unreadable_line(out, unread.sector)?;
    Ok(())
}

// A line for each of these faults that stands.
fn fault_lines<S: Sink>(
    out: &mut S,
    sector: &[u8; 512],
    faults: &[BitmapFault],
) -> Result<(), SinkFault>
    ensures { PutsOrFails S.contents S.failed out.old out.new (flat_map (bitmap_fault_text sector.now) faults.now) result }
{
    for fault in faults {
        line_where_it_stands(out, sector, *fault)?;
    }
    Ok(())
}

fn line_where_it_stands<S: Sink>(
    out: &mut S,
    sector: &[u8; 512],
    fault: BitmapFault,
) -> Result<(), SinkFault>
    ensures { PutsOrFails S.contents S.failed out.old out.new (bitmap_fault_text sector.now fault) result }
{
    if !bitmap_fault_stands(sector, fault) {
        return Ok(());
    }
    line(out, "Fault          ", bitmap_fault_name(fault).as_bytes())
}

/// What a fault of a header is called.
pub(crate) fn bitmap_fault_name(fault: BitmapFault) -> &'static str
    ensures { result.now ≡ bitmap_fault_name fault }
{
    match fault {
        BitmapFault::Magic => "Magic",
        BitmapFault::Version => "Version",
        BitmapFault::ChunkSize => "ChunkSize",
        BitmapFault::TooManyChunks => "TooManyChunks",
    }
}

/// Whether a fault is seen in the bytes of a bitmap's header, whatever others stand there. Chunks are counted only by a size
/// that they may have.
pub fn bitmap_fault_stands(sector: &[u8; 512], fault: BitmapFault) -> bool
    ensures value { result ≡ bitmap_fault_stands sector.now fault }
    ensures meaning { (result ≡ true) ↔ IsBitmapFaultSeen sector.now fault }
{
    let chunksize = u32_at(sector, 52);
    match fault {
        BitmapFault::Magic => u32_at(sector, 0) != MAGIC,
        BitmapFault::Version => u32_at(sector, 4) != VERSION,
        BitmapFault::ChunkSize => !is_chunk_size(chunksize),
        BitmapFault::TooManyChunks => {
            is_chunk_size(chunksize) && !has_few_chunks(u64_at(sector, 40), chunksize)
        }
    }
}
