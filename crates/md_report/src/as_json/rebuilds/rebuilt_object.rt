// The object of a rebuild that is done.
ghost use Rattle.md_streams.specs.Sink.{PutsOrFails};
ghost use Rattle.md_report.specs.AsJson.Objects.{later_text, object_line};
ghost use Rattle.md_report.specs.AsJson.Rebuilds.RebuiltObject.{rebuilt_fields, rebuilt_object};

use crate::as_json::rebuilds::plan_object::number_list;
use crate::as_json::values::{close, next_number, open};
use md_streams::{Sink, SinkFault};

/// Writes a rebuild that is done as an object, alone in its line: the member by its index, how many passes there were, and the
/// chunks that no source had. It takes no memory, and fails only where the sink has failed.
pub fn rebuilt_json<S: Sink>(
    out: &mut S,
    member: u32,
    passes: u32,
    orphans: &[u32],
) -> Result<(), SinkFault>
    ensures { PutsOrFails S.contents S.failed out.old out.new
        (object_line (rebuilt_object member passes orphans.now)) result }
{
    open(out, "rebuild")?;
    rebuilt_fields(out, member, passes, orphans)?;
    close(out)?;
    Ok(())
}

fn rebuilt_fields<S: Sink>(
    out: &mut S,
    member: u32,
    passes: u32,
    orphans: &[u32],
) -> Result<(), SinkFault>
    ensures { PutsOrFails S.contents S.failed out.old out.new
        (later_text (rebuilt_fields member passes orphans.now)) result }
{
    next_number(out, "member", member)?;
    next_number(out, "passes", passes)?;
    number_list(out, "orphans", orphans)?;
    Ok(())
}
