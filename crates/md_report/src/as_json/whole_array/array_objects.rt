// The objects of a whole array.
ghost use Rattle.std.specs.Prelude.{◌≡◌};
ghost use Rattle.md_assembly.specs.States.{is_in_sync};
ghost use Rattle.md_streams.specs.Sink.{PutsOrFails};
ghost use Rattle.md_report.specs.AsJson.WholeArray.ArrayObjects.{condition_fields, detail_object, shared_fields, summary_fields, summary_object};
ghost use Rattle.md_report.specs.AsJson.WholeArray.MemberObjects.{texts_of};
ghost use Rattle.md_report.specs.AsJson.Objects.{later_text, object_line};

use crate::as_json::values::{
    close, next_bool, next_cleanness, next_name, next_number, next_uuid, open,
};
use crate::as_json::whole_array::kernel_field::kernel_field;
use crate::as_json::whole_array::member_objects::members;
use crate::as_json::whole_array::recovering_list::recovering;
use crate::as_json::whole_array::standing_lists::standing_lists;
use md_array::Mirror;
use md_device::Device;
use md_notices::in_sync_count;
use md_streams::{Sink, SinkFault};
use md_super::Superblock;

/// Writes an array in short as an object, alone in its line, with its members, of which `images` are the names, and what is to be run
/// before a kernel is given it. `kind` is the command that shows it. It takes no memory, and fails only where the sink has failed.
pub fn summary_json<S: Sink, D: Device + Drop>(
    out: &mut S,
    kind: &str,
    mirror: &Mirror<D>,
    images: &[&str],
) -> Result<(), SinkFault>
    ensures { PutsOrFails S.contents S.failed out.old out.new
        (object_line (summary_object kind.now mirror.now.array (texts_of images.now))) result }
{
    open(out, kind)?;
    summary(out, mirror)?;
    members(out, mirror, images)?;
    kernel_field(out, mirror)?;
    close(out)?;
    Ok(())
}

/// Writes an array in detail as an object, alone in its line, with its members, of which `images` are the names, and then what
/// `standing_lists`, `recovering` and `kernel_field` write. It takes no memory, and fails only where the sink has failed.
pub fn detail_json<S: Sink, D: Device + Drop>(
    out: &mut S,
    mirror: &Mirror<D>,
    images: &[&str],
) -> Result<(), SinkFault>
    ensures { PutsOrFails S.contents S.failed out.old out.new
        (object_line (detail_object mirror.now.array (texts_of images.now))) result }
{
    open(out, "detail")?;
    shared_fields(out, mirror.shared())?;
    condition(out, mirror)?;
    members(out, mirror, images)?;
    standing_lists(out, mirror)?;
    recovering(out, mirror)?;
    kernel_field(out, mirror)?;
    close(out)?;
    Ok(())
}

fn summary<S: Sink, D: Device + Drop>(out: &mut S, mirror: &Mirror<D>) -> Result<(), SinkFault>
    ensures { PutsOrFails S.contents S.failed out.old out.new
        (later_text (summary_fields mirror.now.array)) result }
{
    next_number(out, "in_sync", in_sync_count(mirror))?;
    next_number(out, "raid_devices", mirror.shared().raid_disks)?;
    next_number(out, "events", mirror.events())?;
    next_number(out, "marked_chunks", mirror.marks().count())?;
    Ok(())
}

fn shared_fields<S: Sink>(out: &mut S, v: &Superblock) -> Result<(), SinkFault>
    ensures { PutsOrFails S.contents S.failed out.old out.new (later_text (shared_fields v.now)) result }
{
    next_uuid(out, "array_uuid", &v.set_uuid)?;
    next_name(out, "name", &v.set_name)?;
    next_number(out, "raid_devices", v.raid_disks)?;
    next_number(out, "array_size", v.size)?;
    Ok(())
}

fn condition<S: Sink, D: Device + Drop>(out: &mut S, mirror: &Mirror<D>) -> Result<(), SinkFault>
    ensures { PutsOrFails S.contents S.failed out.old out.new
        (later_text (condition_fields mirror.now.array)) result }
{
    next_number(out, "in_sync", in_sync_count(mirror))?;
    next_cleanness(out, mirror.shared())?;
    next_bool(out, "degraded", mirror.degraded())?;
    next_bool(out, "resync_needed", !mirror.resynced())?;
    next_number(out, "events", mirror.events())?;
    next_number(out, "chunks", mirror.marks().chunks())?;
    next_number(out, "marked_chunks", mirror.marks().count())?;
    Ok(())
}
