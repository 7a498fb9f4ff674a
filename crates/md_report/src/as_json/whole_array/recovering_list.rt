// How far recovering members are rebuilt, as objects.
ghost use Rattle.std.specs.Prelude.{◌++◌, codes, false};
ghost use Rattle.serde_json.specs.Written.{comma_if, compact_text};
ghost use Rattle.md_streams.specs.Sink.{PutsOrFails};
ghost use Rattle.md_report.specs.Recovery.{recoveries};
ghost use Rattle.md_report.specs.AsJson.Objects.{elements_text, later_text, list_of, next_text};
ghost use Rattle.md_report.specs.AsJson.WholeArray.RecoveringList.{element_if, recovering_fields, recovery_object};

use crate::as_json::values::{comma_if, next_key, next_number, open_number, stands_before};
use crate::recovery::{Recovery, recovery_at};
use md_array::Mirror;
use md_device::Device;
use md_streams::{Sink, SinkFault};

/// The last field of a report in detail: how far each recovering member is.
pub(crate) fn recovering<S: Sink, D: Device + Drop>(
    out: &mut S,
    mirror: &Mirror<D>,
) -> Result<(), SinkFault>
    ensures { PutsOrFails S.contents S.failed out.old out.new
        (later_text (recovering_fields mirror.now.array)) result }
{
    recovery_list(out, mirror)?;
    Ok(())
}

fn recovery_list<S: Sink, D: Device + Drop>(
    out: &mut S,
    mirror: &Mirror<D>,
) -> Result<(), SinkFault>
    ensures { PutsOrFails S.contents S.failed out.old out.new
        (next_text (codes "recovering")
        (compact_text (list_of recovery_object (recoveries mirror.now.array 0 mirror.now.array.members)))) result }
{
    next_key(out, "recovering")?;
    out.put(b"[")?;
    recovery_elements(out, mirror)?;
    out.put(b"]")?;
    Ok(())
}

fn recovery_elements<S: Sink, D: Device + Drop>(
    out: &mut S,
    mirror: &Mirror<D>,
) -> Result<(), SinkFault>
    ensures { PutsOrFails S.contents S.failed out.old out.new
        (elements_text recovery_object false (recoveries mirror.now.array 0 mirror.now.array.members)) result }
{
    let mut later = false;
    for k in 0..mirror.members() {
        let found = recovery_at(mirror, k);
        put_element_if(out, later, found)?;
        later = stands_before(later, found.is_some());
    }
    Ok(())
}

fn put_element_if<S: Sink>(
    out: &mut S,
    later: bool,
    recovery: Option<Recovery>,
) -> Result<(), SinkFault>
    ensures { PutsOrFails S.contents S.failed out.old out.new (element_if later recovery) result }
{
    match recovery {
        Some(recovery) => put_element(out, later, recovery),
        None => out.put(b""),
    }
}

#[tactic(auto, using(md_streams::proofs::Puts::puts_then))]
fn put_element<S: Sink>(out: &mut S, later: bool, recovery: Recovery) -> Result<(), SinkFault>
    ensures { PutsOrFails S.contents S.failed out.old out.new
        (comma_if later ++ compact_text (recovery_object recovery)) result }
{
    out.put(comma_if(later))?;
    put_recovery(out, recovery)?;
    Ok(())
}

fn put_recovery<S: Sink>(out: &mut S, recovery: Recovery) -> Result<(), SinkFault>
    ensures { PutsOrFails S.contents S.failed out.old out.new
        (compact_text (recovery_object recovery)) result }
{
    open_number(out, "index", recovery.member)?;
    next_number(out, "recovery_offset", recovery.offset)?;
    next_number(out, "missing_chunks", recovery.missing)?;
    next_number(out, "marked_before", recovery.marked)?;
    out.put(b"}")?;
    Ok(())
}
