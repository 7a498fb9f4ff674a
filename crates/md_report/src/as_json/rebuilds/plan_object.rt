// The object of a rebuild's plan.
ghost use Rattle.std.specs.Prelude.{◌≡◌, ◌++◌, codes, decimal, false};
ghost use Rattle.serde_json.specs.Written.{comma_if, compact_text};
ghost use Rattle.md_streams.specs.Sink.{PutsOrFails};
ghost use Rattle.md_report.specs.AsJson.WholeArray.MemberObjects.{texts_of};
ghost use Rattle.md_report.specs.AsJson.Objects.{elements_text, later_text, object_line, list_of, next_text, whole};
ghost use Rattle.md_report.specs.AsJson.Rebuilds.PlanObject.{certificate_object, certificate_value, plan_fields, plan_object, slot_object};

use crate::as_json::values::{
    close, comma_if, next_key, next_null, next_number, number, open, open_number,
};
use crate::as_json::whole_array::member_objects::members;
use md_array::Mirror;
use md_cert::{Certificate, Plan, Slot};
use md_device::Device;
use md_streams::{Sink, SinkFault};

/// Writes a plan as an object, alone in its line: which chunk is read from which source in which round, the chunks
/// that show why fewer rounds are too few, those that no source has, and the members of the array, of which `images`
/// are the names. It takes no memory, and fails only where the sink has failed.
pub fn plan_json<S: Sink, D: Device + Drop>(
    out: &mut S,
    plan: &Plan,
    certificate: &Certificate,
    orphans: &[u32],
    mirror: &Mirror<D>,
    images: &[&str],
) -> Result<(), SinkFault>
    ensures { PutsOrFails S.contents S.failed out.old out.new
        (object_line (plan_object plan.now certificate.now orphans.now mirror.now.array (texts_of images.now))) result }
{
    open(out, "plan")?;
    plan_fields(out, plan, certificate, orphans)?;
    members(out, mirror, images)?;
    close(out)?;
    Ok(())
}

fn plan_fields<S: Sink>(
    out: &mut S,
    plan: &Plan,
    certificate: &Certificate,
    orphans: &[u32],
) -> Result<(), SinkFault>
    ensures { PutsOrFails S.contents S.failed out.old out.new
        (later_text (plan_fields plan.now certificate.now orphans.now)) result }
{
    next_number(out, "rounds", plan.rounds)?;
    slot_list(out, plan.slots.as_slice())?;
    certificate_field(out, plan, certificate)?;
    number_list(out, "orphans", orphans)?;
    Ok(())
}

fn certificate_field<S: Sink>(
    out: &mut S,
    plan: &Plan,
    certificate: &Certificate,
) -> Result<(), SinkFault>
    ensures { PutsOrFails S.contents S.failed out.old out.new
        (next_text (codes "certificate") (compact_text (certificate_value plan.now certificate.now))) result }
{
    if plan.rounds == 0 {
        next_null(out, "certificate")
    } else {
        next_certificate(out, certificate)
    }
}

fn next_certificate<S: Sink>(out: &mut S, certificate: &Certificate) -> Result<(), SinkFault>
    ensures { PutsOrFails S.contents S.failed out.old out.new
        (next_text (codes "certificate") (compact_text (certificate_object certificate.now))) result }
{
    next_key(out, "certificate")?;
    short_set(out, certificate)?;
    Ok(())
}

fn short_set<S: Sink>(out: &mut S, certificate: &Certificate) -> Result<(), SinkFault>
    ensures { PutsOrFails S.contents S.failed out.old out.new
        (compact_text (certificate_object certificate.now)) result }
{
    open_number(out, "rounds", certificate.rounds)?;
    number_list(out, "chunks", certificate.chunks.as_slice())?;
    out.put(b"}")?;
    Ok(())
}

/// A field whose value is a list of numbers.
pub(crate) fn number_list<S: Sink>(
    out: &mut S,
    name: &str,
    numbers: &[u32],
) -> Result<(), SinkFault>
    ensures { PutsOrFails S.contents S.failed out.old out.new
        (next_text name.now (compact_text (list_of whole numbers.now))) result }
{
    next_key(out, name)?;
    out.put(b"[")?;
    number_elements(out, numbers)?;
    out.put(b"]")?;
    Ok(())
}

fn number_elements<S: Sink>(out: &mut S, numbers: &[u32]) -> Result<(), SinkFault>
    ensures { PutsOrFails S.contents S.failed out.old out.new
        (elements_text whole false numbers.now) result }
{
    let mut later = false;
    for n in numbers {
        number_element(out, later, *n)?;
        later = true;
    }
    Ok(())
}

#[tactic(auto, using(md_streams::proofs::Puts::puts_then))]
fn number_element<S: Sink>(out: &mut S, later: bool, n: u32) -> Result<(), SinkFault>
    ensures { PutsOrFails S.contents S.failed out.old out.new (comma_if later ++ decimal n) result }
{
    out.put(comma_if(later))?;
    number(out, n)?;
    Ok(())
}

fn slot_list<S: Sink>(out: &mut S, slots: &[Slot]) -> Result<(), SinkFault>
    ensures { PutsOrFails S.contents S.failed out.old out.new
        (next_text (codes "chunks") (compact_text (list_of slot_object slots.now))) result }
{
    next_key(out, "chunks")?;
    out.put(b"[")?;
    slot_elements(out, slots)?;
    out.put(b"]")?;
    Ok(())
}

fn slot_elements<S: Sink>(out: &mut S, slots: &[Slot]) -> Result<(), SinkFault>
    ensures { PutsOrFails S.contents S.failed out.old out.new
        (elements_text slot_object false slots.now) result }
{
    let mut later = false;
    for slot in slots {
        slot_element(out, later, slot)?;
        later = true;
    }
    Ok(())
}

#[tactic(auto, using(md_streams::proofs::Puts::puts_then))]
fn slot_element<S: Sink>(out: &mut S, later: bool, slot: &Slot) -> Result<(), SinkFault>
    ensures { PutsOrFails S.contents S.failed out.old out.new
        (comma_if later ++ compact_text (slot_object slot.now)) result }
{
    out.put(comma_if(later))?;
    slot_value(out, slot)?;
    Ok(())
}

fn slot_value<S: Sink>(out: &mut S, slot: &Slot) -> Result<(), SinkFault>
    ensures { PutsOrFails S.contents S.failed out.old out.new
        (compact_text (slot_object slot.now)) result }
{
    open_number(out, "chunk", slot.chunk)?;
    next_number(out, "source", slot.source)?;
    next_number(out, "round", slot.round)?;
    out.put(b"}")?;
    Ok(())
}
