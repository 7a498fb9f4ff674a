// The object of a check.
ghost use Rattle.std.specs.Prelude.{◌≡◌, ◌<◌, ◌++◌, codes, false, if◌then◌else◌, length, []};
ghost use Rattle.std.specs.Int.{div_ceil};
ghost use Rattle.std.specs.List.{All};
ghost use Rattle.serde_json.specs.Written.{comma_if, compact_text};
ghost use Rattle.md_bitmap.specs.Marks.{is_set};
ghost use Rattle.md_collect.specs.Found.{IsSized};
ghost use Rattle.md_streams.specs.Sink.{PutsOrFails};
ghost use Rattle.md_report.specs.AsJson.CheckObject.{check_object, chunk_list_fields, chunk_object, chunks_to, compared_fields, compared_to, count_fields, listed_fields, pair_value, pairs_in, run_of_chunk};
ghost use Rattle.md_report.specs.AsJson.WholeArray.MemberObjects.{texts_of};
ghost use Rattle.md_report.specs.AsJson.Objects.{elements_text, later_text, object_line, list_of, next_text, whole};

use crate::as_json::values::{
    chosen_number, close, comma_if, next_key, next_number, number, open, open_number, stands_before,
};
use crate::as_json::whole_array::member_objects::members;
use crate::as_json::whole_array::standing_lists::bad_sectors;
use md_array::Mirror;
use md_badblocks::Run;
use md_bitmap::{Chunks, Marks};
use md_collect::{Comparison, Pair};
use md_device::Device;
use md_streams::{Sink, SinkFault};

/// Writes a check as an object, alone in its line: in how many chunks members in sync differ, of each of these the
/// sectors and the pairs of members that differ there, the members, of which `images` are the names, the indices of those
/// that were compared, and what each member lists as bad. It takes no memory, and fails only where the sink has failed.
pub fn check_json<S: Sink, D: Device + Drop>(
    out: &mut S,
    found: &Comparison,
    mirror: &Mirror<D>,
    images: &[&str],
) -> Result<(), SinkFault>
    requires { IsSized mirror.now.array.chunks found.now }
    ensures { PutsOrFails S.contents S.failed out.old out.new
        (object_line (check_object found.now mirror.now.array (texts_of images.now))) result }
{
    open(out, "check")?;
    mismatch_counts(out, &found.chunks)?;
    chunk_list(out, mirror.chunks(), found)?;
    members(out, mirror, images)?;
    compared_members(out, mirror)?;
    listed_sectors(out, mirror)?;
    close(out)?;
    Ok(())
}

// What each member lists as bad: of those that were compared these sectors were left out.
fn listed_sectors<S: Sink, D: Device + Drop>(
    out: &mut S,
    mirror: &Mirror<D>,
) -> Result<(), SinkFault>
    ensures { PutsOrFails S.contents S.failed out.old out.new
        (later_text (listed_fields mirror.now.array.members)) result }
{
    bad_sectors(out, mirror)?;
    Ok(())
}

fn mismatch_counts<S: Sink>(out: &mut S, set: &Marks) -> Result<(), SinkFault>
    ensures { PutsOrFails S.contents S.failed out.old out.new (later_text (count_fields set.now)) result }
{
    next_number(out, "mismatched_chunks", set.count())?;
    Ok(())
}

// The members in sync.
fn compared_members<S: Sink, D: Device + Drop>(
    out: &mut S,
    mirror: &Mirror<D>,
) -> Result<(), SinkFault>
    ensures { PutsOrFails S.contents S.failed out.old out.new
        (later_text (compared_fields mirror.now.array.members)) result }
{
    next_key(out, "compared_members")?;
    out.put(b"[")?;
    compared_elements(out, mirror)?;
    out.put(b"]")?;
    Ok(())
}

fn compared_elements<S: Sink, D: Device + Drop>(
    out: &mut S,
    mirror: &Mirror<D>,
) -> Result<(), SinkFault>
    ensures { PutsOrFails S.contents S.failed out.old out.new
        (elements_text whole false
        (compared_to mirror.now.array.members (length mirror.now.array.members))) result }
{
    let mut later = false;
    for k in 0..mirror.members() {
        let compared = mirror.state(k).is_in_sync();
        chosen_number(out, later, compared, k)?;
        later = stands_before(later, compared);
    }
    Ok(())
}

fn chunk_list<S: Sink>(out: &mut S, chunks: Chunks, found: &Comparison) -> Result<(), SinkFault>
    requires { IsSized chunks found.now }
    ensures { PutsOrFails S.contents S.failed out.old out.new
        (later_text (chunk_list_fields chunks found.now)) result }
{
    next_key(out, "mismatches")?;
    out.put(b"[")?;
    chunk_elements(out, chunks, found)?;
    out.put(b"]")?;
    Ok(())
}

fn chunk_elements<S: Sink>(out: &mut S, chunks: Chunks, found: &Comparison) -> Result<(), SinkFault>
    requires { IsSized chunks found.now }
    ensures { PutsOrFails S.contents S.failed out.old out.new
        (elements_text (chunk_object chunks found.now.pairs.items) false
        (chunks_to found.now.chunks found.now.chunks.chunks)) result }
{
    let mut later = false;
    for c in 0..found.chunks.chunks() {
        let differs = found.chunks.is_marked(c);
        chunk_where(out, later, differs, chunks, found.pairs.as_slice(), c)?;
        later = stands_before(later, differs);
    }
    Ok(())
}

// A chunk in which members differ.
fn chunk_where<S: Sink>(
    out: &mut S,
    later: bool,
    differs: bool,
    chunks: Chunks,
    pairs: &[Pair],
    c: u32,
) -> Result<(), SinkFault>
    requires chunk { c < div_ceil chunks.size chunks.sectors }
    requires within { All (λ pair. c < pair.chunks.chunks) pairs.now }
    ensures { PutsOrFails S.contents S.failed out.old out.new
        (if differs then (comma_if later ++ compact_text (chunk_object chunks pairs.now c)) else []) result }
{
    if !differs {
        return Ok(());
    }
    chunk_element(out, later, chunks, pairs, c)
}

#[tactic(auto, using(md_streams::proofs::Puts::puts_then))]
fn chunk_element<S: Sink>(
    out: &mut S,
    later: bool,
    chunks: Chunks,
    pairs: &[Pair],
    c: u32,
) -> Result<(), SinkFault>
    requires chunk { c < div_ceil chunks.size chunks.sectors }
    requires within { All (λ pair. c < pair.chunks.chunks) pairs.now }
    ensures { PutsOrFails S.contents S.failed out.old out.new
        (comma_if later ++ compact_text (chunk_object chunks pairs.now c)) result }
{
    out.put(comma_if(later))?;
    chunk_value(out, chunks, pairs, c)?;
    Ok(())
}

fn chunk_value<S: Sink>(
    out: &mut S,
    chunks: Chunks,
    pairs: &[Pair],
    c: u32,
) -> Result<(), SinkFault>
    requires chunk { c < div_ceil chunks.size chunks.sectors }
    requires within { All (λ pair. c < pair.chunks.chunks) pairs.now }
    ensures { PutsOrFails S.contents S.failed out.old out.new
        (compact_text (chunk_object chunks pairs.now c)) result }
{
    let sectors = sectors_of(chunks, c);
    open_number(out, "sector", sectors.start)?;
    next_number(out, "sectors", sectors.len)?;
    pair_list(out, pairs, c)?;
    out.put(b"}")?;
    Ok(())
}

fn sectors_of(chunks: Chunks, c: u32) -> Run
    requires { c < div_ceil chunks.size chunks.sectors }
    ensures { result ≡ run_of_chunk chunks c }
{
    let (start, len) = chunks.range(c);
    Run { start, len }
}

fn pair_list<S: Sink>(out: &mut S, pairs: &[Pair], c: u32) -> Result<(), SinkFault>
    requires { All (λ pair. c < pair.chunks.chunks) pairs.now }
    ensures { PutsOrFails S.contents S.failed out.old out.new
        (next_text (codes "pairs") (compact_text (list_of pair_value (pairs_in c pairs.now)))) result }
{
    next_key(out, "pairs")?;
    out.put(b"[")?;
    pair_elements(out, pairs, c)?;
    out.put(b"]")?;
    Ok(())
}

fn pair_elements<S: Sink>(out: &mut S, pairs: &[Pair], c: u32) -> Result<(), SinkFault>
    requires { All (λ pair. c < pair.chunks.chunks) pairs.now }
    ensures { PutsOrFails S.contents S.failed out.old out.new
        (elements_text pair_value false (pairs_in c pairs.now)) result }
{
    let mut later = false;
    for pair in pairs {
        let differs = pair.chunks.is_marked(c);
        pair_where(out, later, differs, pair)?;
        later = stands_before(later, differs);
    }
    Ok(())
}

// A pair that differs.
fn pair_where<S: Sink>(
    out: &mut S,
    later: bool,
    differs: bool,
    pair: &Pair,
) -> Result<(), SinkFault>
    ensures { PutsOrFails S.contents S.failed out.old out.new
        (if differs then (comma_if later ++ compact_text (pair_value pair.now)) else []) result }
{
    if !differs {
        return Ok(());
    }
    pair_element(out, later, pair)
}

#[tactic(auto, using(md_streams::proofs::Puts::puts_then))]
fn pair_element<S: Sink>(out: &mut S, later: bool, pair: &Pair) -> Result<(), SinkFault>
    ensures { PutsOrFails S.contents S.failed out.old out.new
        (comma_if later ++ compact_text (pair_value pair.now)) result }
{
    out.put(comma_if(later))?;
    two_numbers(out, pair)?;
    Ok(())
}

fn two_numbers<S: Sink>(out: &mut S, pair: &Pair) -> Result<(), SinkFault>
    ensures { PutsOrFails S.contents S.failed out.old out.new
        (compact_text (pair_value pair.now)) result }
{
    out.put(b"[")?;
    number(out, pair.one)?;
    out.put(b",")?;
    number(out, pair.other)?;
    out.put(b"]")?;
    Ok(())
}
