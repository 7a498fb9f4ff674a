// The object of a bitmap.
ghost use Rattle.std.specs.Prelude.{◌≡◌};
ghost use Rattle.md_streams.specs.Sink.{PutsOrFails};
ghost use Rattle.md_report.specs.AsJson.OneImage.BitmapObject.{bitmap_object, identity_fields, mark_fields, setting_fields};
ghost use Rattle.md_report.specs.AsJson.Objects.{later_text, object_line};

use crate::as_json::values::{close, next_number, next_text, next_uuid, open};
use md_bitmap::{BitmapHeader, Marks};
use md_streams::{Sink, SinkFault};

const VERSION: u32 = 4;

/// Writes a bitmap as an object, alone in its line. It takes no memory, and fails only where the sink
/// has failed.
pub fn bitmap_json<S: Sink>(
    out: &mut S,
    header: &BitmapHeader,
    marks: &Marks,
) -> Result<(), SinkFault>
    ensures { PutsOrFails S.contents S.failed out.old out.new
        (object_line (bitmap_object header.now marks.now)) result }
{
    open(out, "examine-bitmap")?;
    identity(out, header)?;
    settings(out, header)?;
    marked_chunks(out, marks)?;
    close(out)?;
    Ok(())
}

fn identity<S: Sink>(out: &mut S, header: &BitmapHeader) -> Result<(), SinkFault>
    ensures { PutsOrFails S.contents S.failed out.old out.new
        (later_text (identity_fields header.now)) result }
{
    next_text(out, "magic", b"6d746962")?;
    next_number(out, "version", VERSION)?;
    next_uuid(out, "array_uuid", &header.uuid)?;
    next_number(out, "events", header.events)?;
    next_number(out, "events_cleared", header.events_cleared)?;
    Ok(())
}

fn settings<S: Sink>(out: &mut S, header: &BitmapHeader) -> Result<(), SinkFault>
    ensures { PutsOrFails S.contents S.failed out.old out.new
        (later_text (setting_fields header.now)) result }
{
    next_number(out, "state", header.state)?;
    next_number(out, "chunk_size", header.chunksize)?;
    next_number(out, "daemon_sleep", header.daemon_sleep)?;
    next_number(out, "sync_size", header.sync_size)?;
    Ok(())
}

fn marked_chunks<S: Sink>(out: &mut S, marks: &Marks) -> Result<(), SinkFault>
    ensures { PutsOrFails S.contents S.failed out.old out.new
        (later_text (mark_fields marks.now)) result }
{
    next_number(out, "chunks", marks.chunks())?;
    next_number(out, "marked_chunks", marks.count())?;
    Ok(())
}
