// The images that show no member as a list of objects.
ghost use Rattle.std.specs.Prelude.{◌≡◌, ◌++◌, ◌∷◌, ◌||◌, [], codes, false, if◌then◌else◌};
ghost use Rattle.std.specs.List.{filter};
ghost use Rattle.json.specs.Print.{quoted};
ghost use Rattle.serde_json.specs.Written.{comma_if, compact_text};
ghost use Rattle.md_streams.specs.Sink.{PutsOrFails};
ghost use Rattle.md_report.specs.AsJson.Objects.{elements_text, key_text, list_of, next_text};
ghost use Rattle.md_examine_commands.specs.Unshown.{fault_word, is_told_why, refused_value, unshown_object};

use crate::scan::refused::{Refused, ScanFault};
use crate::scan::scan_object::stands_before;
use md_report::as_json::values::{comma_if, next_key};
use md_report::put_quoted;
use md_streams::{Sink, SinkFault};

/// The images that it is told of why they show no member.
pub(crate) fn put_refused_list<S: Sink>(
    out: &mut S,
    is_named: bool,
    all: &[Refused<'_>],
) -> Result<(), SinkFault>
    ensures { PutsOrFails S.contents S.failed out.old out.new
        (next_text (codes "refused") (compact_text (refused_value is_named all.now))) result }
{
    next_key(out, "refused")?;
    out.put(b"[")?;
    refused_elements(out, is_named, all)?;
    out.put(b"]")?;
    Ok(())
}

fn refused_elements<S: Sink>(
    out: &mut S,
    is_named: bool,
    all: &[Refused<'_>],
) -> Result<(), SinkFault>
    ensures { PutsOrFails S.contents S.failed out.old out.new
        (elements_text unshown_object false (filter (is_told_why is_named) all.now)) result }
{
    let mut later = false;
    for refused in all {
        let is_there = refused.is_told_why(is_named);
        refused_where(out, later, is_there, refused)?;
        later = stands_before(later, is_there);
    }
    Ok(())
}

#[tactic(auto, using(md_streams::proofs::Puts::puts_then))]
fn refused_where<S: Sink>(
    out: &mut S,
    later: bool,
    is_there: bool,
    refused: &Refused<'_>,
) -> Result<(), SinkFault>
    ensures { PutsOrFails S.contents S.failed out.old out.new
        (if is_there then (comma_if later ++ compact_text (unshown_object refused.now)) else []) result }
{
    if !is_there {
        return Ok(());
    }
    out.put(comma_if(later))?;
    unshown(out, refused)?;
    Ok(())
}

fn unshown<S: Sink>(out: &mut S, refused: &Refused<'_>) -> Result<(), SinkFault>
    ensures { PutsOrFails S.contents S.failed out.old out.new
        (compact_text (unshown_object refused.now)) result }
{
    open_image(out, refused.name)?;
    put_fault(out, &refused.fault)?;
    out.put(b"}")?;
    Ok(())
}

#[tactic(auto, using(md_streams::proofs::Puts::puts_then))]
fn open_image<S: Sink>(out: &mut S, name: &str) -> Result<(), SinkFault>
    ensures { PutsOrFails S.contents S.failed out.old out.new
        (123 ∷ (key_text (codes "image") ++ quoted name.now)) result }
{
    out.put(b"{")?;
    image_key(out)?;
    put_quoted(out, name.as_bytes())?;
    Ok(())
}

#[tactic(auto, using(md_streams::proofs::Puts::puts_then))]
fn image_key<S: Sink>(out: &mut S) -> Result<(), SinkFault>
    ensures { PutsOrFails S.contents S.failed out.old out.new (key_text (codes "image")) result }
{
    put_quoted(out, b"image")?;
    out.put(b":")?;
    Ok(())
}

fn put_fault<S: Sink>(out: &mut S, fault: &ScanFault) -> Result<(), SinkFault>
    ensures { PutsOrFails S.contents S.failed out.old out.new
        (next_text (codes "fault") (quoted (fault_word fault.now))) result }
{
    next_key(out, "fault")?;
    put_quoted_word(out, fault)?;
    Ok(())
}

// No fault's words have a byte that is escaped.
fn put_quoted_word<S: Sink>(out: &mut S, fault: &ScanFault) -> Result<(), SinkFault>
    ensures { PutsOrFails S.contents S.failed out.old out.new (quoted (fault_word fault.now)) result }
{
    out.put(b"\"")?;
    fault.put_word(out)?;
    out.put(b"\"")?;
    Ok(())
}
