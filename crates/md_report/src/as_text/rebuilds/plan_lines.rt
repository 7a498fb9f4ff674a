// The report of a rebuild's plan.
ghost use Rattle.std.specs.List.{flat_map};
ghost use Rattle.md_streams.specs.Sink.{PutsOrFails};
ghost use Rattle.md_report.specs.AsText.Rebuilds.PlanReport.{certificate_text, chunks_text, columns_text, heading_text, orphans_text, plan_text, short_set_text, slot_text, totals_text};

use itoa::Buffer;
use md_cert::{Certificate, Plan, Slot};
use md_examine::right_aligned;
use md_streams::{Sink, SinkFault, number_after};

/// Writes which chunk is read from which source in which round, a line for each in the plan's order,
/// then the chunks that show why fewer rounds are too few, and the orphans: the chunks that no source
/// has. It takes no memory, and fails only where the sink has failed.
#[tactic(auto, unfolding(crate::specs::AsText::Rebuilds::PlanReport::plan_text), using(md_streams::proofs::Puts::puts_then))]
pub fn plan_report<S: Sink>(
    out: &mut S,
    plan: &Plan,
    certificate: &Certificate,
    orphans: &[u32],
) -> Result<(), SinkFault>
    ensures { PutsOrFails S.contents S.failed out.old out.new (plan_text plan.now certificate.now orphans.now) result }
{
    let slots = plan.slots.as_slice();
    totals(out, plan.rounds, slots.len(), orphans.len())?;
    heading(out)?;
    slot_lines(out, slots)?;
    certificate_line(out, plan, certificate)?;
    orphans_line(out, orphans)?;
    Ok(())
}

#[tactic(auto, unfolding(crate::specs::AsText::Rebuilds::PlanReport::totals_text), using(md_streams::proofs::Puts::puts_then))]
fn totals<S: Sink>(out: &mut S, rounds: u32, chunks: usize, orphans: usize) -> Result<(), SinkFault>
    ensures { PutsOrFails S.contents S.failed out.old out.new (totals_text rounds chunks orphans) result }
{
    number_after(out, b"rounds ", rounds)?;
    number_after(out, b", chunks ", chunks)?;
    number_after(out, b", orphans ", orphans)?;
    out.put(b"\n")?;
    Ok(())
}

fn heading<S: Sink>(out: &mut S) -> Result<(), SinkFault>
    ensures { PutsOrFails S.contents S.failed out.old out.new heading_text result }
{
    columns(out, b"chunk", b"source", b"round")
}

fn slot_lines<S: Sink>(out: &mut S, slots: &[Slot]) -> Result<(), SinkFault>
    ensures { PutsOrFails S.contents S.failed out.old out.new (flat_map slot_text slots.now) result }
{
    for slot in slots {
        slot_line(out, slot)?;
    }
    Ok(())
}

fn slot_line<S: Sink>(out: &mut S, slot: &Slot) -> Result<(), SinkFault>
    ensures { PutsOrFails S.contents S.failed out.old out.new (slot_text slot.now) result }
{
    let mut chunk = Buffer::new();
    let mut source = Buffer::new();
    let mut round = Buffer::new();
    columns(
        out,
        chunk.format(slot.chunk).as_bytes(),
        source.format(slot.source).as_bytes(),
        round.format(slot.round).as_bytes(),
    )
}

#[tactic(auto, unfolding(crate::specs::AsText::Rebuilds::PlanReport::columns_text), using(md_streams::proofs::Puts::puts_then))]
fn columns<S: Sink>(out: &mut S, chunk: &[u8], source: &[u8], round: &[u8]) -> Result<(), SinkFault>
    ensures { PutsOrFails S.contents S.failed out.old out.new (columns_text chunk.now source.now round.now) result }
{
    right_aligned(out, 8, chunk)?;
    out.put(b" ")?;
    right_aligned(out, 6, source)?;
    out.put(b" ")?;
    right_aligned(out, 8, round)?;
    out.put(b"\n")?;
    Ok(())
}

fn certificate_line<S: Sink>(
    out: &mut S,
    plan: &Plan,
    certificate: &Certificate,
) -> Result<(), SinkFault>
    ensures { PutsOrFails S.contents S.failed out.old out.new (certificate_text plan.now certificate.now) result }
{
    if plan.rounds == 0 {
        out.put(b"certificate: none\n")
    } else {
        short_set(out, certificate)
    }
}

fn short_set<S: Sink>(out: &mut S, certificate: &Certificate) -> Result<(), SinkFault>
    ensures { PutsOrFails S.contents S.failed out.old out.new (short_set_text certificate.now) result }
{
    number_after(out, b"certificate for ", certificate.rounds)?;
    out.put(b" rounds:")?;
    chunk_list(out, certificate.chunks.as_slice())?;
    out.put(b"\n")?;
    Ok(())
}

#[tactic(auto, unfolding(crate::specs::AsText::Rebuilds::PlanReport::orphans_text), using(md_streams::proofs::Puts::puts_then))]
fn orphans_line<S: Sink>(out: &mut S, orphans: &[u32]) -> Result<(), SinkFault>
    ensures { PutsOrFails S.contents S.failed out.old out.new (orphans_text orphans.now) result }
{
    if orphans.is_empty() {
        return out.put(b"orphans: none\n");
    }
    out.put(b"orphans:")?;
    chunk_list(out, orphans)?;
    out.put(b"\n")?;
    Ok(())
}

// Each chunk after a space.
fn chunk_list<S: Sink>(out: &mut S, chunks: &[u32]) -> Result<(), SinkFault>
    ensures { PutsOrFails S.contents S.failed out.old out.new (chunks_text chunks.now) result }
{
    for chunk in chunks {
        number_after(out, b" ", *chunk)?;
    }
    Ok(())
}
