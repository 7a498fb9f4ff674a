// The report of a bitmap.
ghost use Rattle.std.specs.Prelude.{codes};
ghost use Rattle.md_streams.specs.Sink.{PutsOrFails};
ghost use Rattle.md_examine.specs.Lines.{line_text, column};
ghost use Rattle.md_examine.specs.BitmapReport.{identity_lines, setting_lines, marks_text, bitmap_report};

use crate::lines::{decimal_line, hex_line, line, marks_line, sectors_line, unit_line, uuid_line};
use md_bitmap::{BitmapHeader, Marks};
use md_streams::{Sink, SinkFault};

/// Writes the report of a bitmap, ten labelled lines. It takes no memory, and fails only where the
/// sink has failed.
pub fn examine_bitmap<S: Sink>(
    out: &mut S,
    header: &BitmapHeader,
    marks: &Marks,
) -> Result<(), SinkFault>
    ensures { PutsOrFails S.contents S.failed out.old out.new (bitmap_report header.now marks.now) result }
{
    identity(out, header)?;
    settings(out, header)?;
    marked_line(out, marks)?;
    Ok(())
}

fn identity<S: Sink>(out: &mut S, header: &BitmapHeader) -> Result<(), SinkFault>
    ensures { PutsOrFails S.contents S.failed out.old out.new (identity_lines header.now) result }
{
    line(out, "Magic          ", b"6d746962")?;
    line(out, "Version        ", b"4")?;
    uuid_line(out, "Array UUID     ", &header.uuid)?;
    decimal_line(out, "Events         ", header.events)?;
    decimal_line(out, "Events Cleared ", header.events_cleared)?;
    Ok(())
}

fn settings<S: Sink>(out: &mut S, header: &BitmapHeader) -> Result<(), SinkFault>
    ensures { PutsOrFails S.contents S.failed out.old out.new (setting_lines header.now) result }
{
    hex_line(out, "State          ", b"0x", header.state)?;
    unit_line(out, "Chunk Size     ", header.chunksize, b" bytes")?;
    unit_line(out, "Daemon Sleep   ", header.daemon_sleep, b" seconds")?;
    sectors_line(out, "Sync Size      ", header.sync_size)?;
    Ok(())
}

fn marked_line<S: Sink>(out: &mut S, marks: &Marks) -> Result<(), SinkFault>
    ensures { PutsOrFails S.contents S.failed out.old out.new (line_text (column (codes "Bitmap")) (marks_text marks.now)) result }
{
    marks_line(out, "Bitmap         ", marks.chunks(), marks.count())
}
