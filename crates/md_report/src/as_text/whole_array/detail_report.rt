// The report of an array.
ghost use Rattle.std.specs.Prelude.{◌≡◌, codes};
ghost use Rattle.md_streams.specs.Sink.{PutsOrFails};
ghost use Rattle.md_examine.specs.Lines.{line_text, column};
ghost use Rattle.md_report.specs.AsText.WholeArray.DetailReport.{shared_lines, text_where, condition_text, marked_text, condition_lines, detail_text};

use crate::as_text::whole_array::member_lines::member_lines;
use itoa::Buffer;
use md_array::Mirror;
use md_bitmap::Marks;
use md_device::Device;
use md_examine::{cleanness, decimal_line, name_line, sectors_line, three_part_line, uuid_line};
use md_notices::in_sync_count;
use md_streams::{Sink, SinkFault};
use md_super::Superblock;

/// Writes the report of an array, eight labelled lines and a line for each member. It takes no
/// memory, and fails only where the sink has failed.
pub fn detail<S: Sink, D: Device + Drop>(out: &mut S, mirror: &Mirror<D>) -> Result<(), SinkFault>
    ensures { PutsOrFails S.contents S.failed out.old out.new (detail_text mirror.now.array) result }
{
    shared_lines(out, mirror.shared())?;
    condition(out, mirror)?;
    member_lines(out, mirror)?;
    Ok(())
}

/// What the members share.
pub(crate) fn shared_lines<S: Sink>(out: &mut S, v: &Superblock) -> Result<(), SinkFault>
    ensures { PutsOrFails S.contents S.failed out.old out.new (shared_lines v.now) result }
{
    uuid_line(out, "Array UUID     ", &v.set_uuid)?;
    name_line(out, "Name           ", &v.set_name)?;
    decimal_line(out, "Raid Devices   ", v.raid_disks)?;
    sectors_line(out, "Array Size     ", v.size)?;
    Ok(())
}

/// What changes as the array is used.
pub(crate) fn condition<S: Sink, D: Device + Drop>(
    out: &mut S,
    mirror: &Mirror<D>,
) -> Result<(), SinkFault>
    ensures { PutsOrFails S.contents S.failed out.old out.new (condition_lines mirror.now.array) result }
{
    decimal_line(out, "In Sync        ", in_sync_count(mirror))?;
    state(out, mirror)?;
    decimal_line(out, "Events         ", mirror.events())?;
    marked_line(out, mirror.marks())?;
    Ok(())
}

fn state<S: Sink, D: Device + Drop>(out: &mut S, mirror: &Mirror<D>) -> Result<(), SinkFault>
    ensures { PutsOrFails S.contents S.failed out.old out.new (line_text (column (codes "State")) (condition_text mirror.now.array)) result }
{
    let cleanness = cleanness(mirror.shared()).as_bytes();
    let degraded = text_where(mirror.degraded(), b", degraded");
    let resync = text_where(!mirror.resynced(), b", resync needed");
    three_part_line(out, "State          ", cleanness, degraded, resync)
}

pub(crate) fn text_where(holds: bool, text: &[u8]) -> &[u8]
    ensures { result.now ≡ text_where holds text.now }
{
    if holds { text } else { &[] }
}

fn marked_line<S: Sink>(out: &mut S, marks: &Marks) -> Result<(), SinkFault>
    ensures { PutsOrFails S.contents S.failed out.old out.new (line_text (column (codes "Marked Chunks")) (marked_text marks.now)) result }
{
    let mut marked_buffer = Buffer::new();
    let mut chunks_buffer = Buffer::new();
    let marked = marked_buffer.format(marks.count()).as_bytes();
    let chunks = chunks_buffer.format(marks.chunks()).as_bytes();
    three_part_line(out, "Marked Chunks  ", marked, b" of ", chunks)
}
