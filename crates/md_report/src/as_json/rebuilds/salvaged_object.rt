// The object of a rebuild that lists bad sectors, and not their chunks.
ghost use Rattle.std.specs.Prelude.{◌≡◌, codes};
ghost use Rattle.serde_json.specs.Written.{compact_text};
ghost use Rattle.md_streams.specs.Sink.{PutsOrFails};
ghost use Rattle.md_report.specs.AsJson.OneImage.BadblocksObject.{run_object};
ghost use Rattle.md_report.specs.AsJson.Objects.{later_text, list_of, next_text, object_line};
ghost use Rattle.md_report.specs.AsJson.Rebuilds.SalvagedObject.{salvaged_fields, salvaged_object};

use crate::as_json::one_image::badblocks_object::run_elements;
use crate::as_json::values::{close, next_key, next_number, open};
use crate::as_text::besides;
use md_badblocks::{BadSet, Run};
use md_notices::count_sectors;
use md_streams::{Sink, SinkFault};

/// Writes such a rebuild as an object, alone in its line: the member by its index, how many sectors no member in sync gave,
/// how many were listed besides, as a log had no room for so many runs, and the runs of those that are lost. It takes no
/// memory, and fails only where the sink has failed.
pub fn salvaged_json<S: Sink>(
    out: &mut S,
    member: u32,
    lost: &BadSet,
    listed: &BadSet,
) -> Result<(), SinkFault>
    ensures { PutsOrFails S.contents S.failed out.old out.new
        (object_line (salvaged_object member lost.now listed.now)) result }
{
    open(out, "rebuild")?;
    salvaged_fields(out, member, lost, listed)?;
    close(out)?;
    Ok(())
}

fn salvaged_fields<S: Sink>(
    out: &mut S,
    member: u32,
    lost: &BadSet,
    listed: &BadSet,
) -> Result<(), SinkFault>
    ensures { PutsOrFails S.contents S.failed out.old out.new
        (later_text (salvaged_fields member lost.now listed.now)) result }
{
    next_number(out, "member", member)?;
    next_number(out, "passes", 1u32)?;
    next_number(out, "lost_sectors", count_sectors(lost))?;
    next_number(out, "listed_besides", besides(lost, listed))?;
    lost_list(out, lost.runs())?;
    Ok(())
}

// The runs of those that are lost.
fn lost_list<S: Sink>(out: &mut S, runs: &[Run]) -> Result<(), SinkFault>
    ensures { PutsOrFails S.contents S.failed out.old out.new
        (next_text (codes "lost") (compact_text (list_of run_object runs.now))) result }
{
    next_key(out, "lost")?;
    out.put(b"[")?;
    run_elements(out, runs)?;
    out.put(b"]")?;
    Ok(())
}
