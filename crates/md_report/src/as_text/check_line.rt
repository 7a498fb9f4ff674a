// The report of a check.
ghost use Rattle.std.specs.Prelude.{◌≡◌, ◌<◌, ◌≤◌};
ghost use Rattle.std.specs.List.{All, flat_map, range_with_len};
ghost use Rattle.md_collect.specs.Found.{IsSized};
ghost use Rattle.md_streams.specs.Sink.{PutsOrFails};
ghost use Rattle.md_report.specs.AsText.CheckReport.{check_text, chunk_line, chunk_text, list_text, pair_in, pair_text};

use md_bitmap::Chunks;
use md_collect::{Comparison, Pair};
use md_examine::right_aligned_number;
use md_streams::{Sink, SinkFault, number_after};

/// Writes one line: in how many chunks members in sync differ. It takes no memory, and fails only where the
/// sink has failed.
pub fn check_report<S: Sink>(out: &mut S, mismatched: u32) -> Result<(), SinkFault>
    ensures { PutsOrFails S.contents S.failed out.old out.new (check_text mismatched) result }
{
    number_after(out, b"mismatched chunks: ", mismatched)?;
    out.put(b"\n")?;
    Ok(())
}

/// Writes a line for each chunk in which members in sync differ, rising, with the pairs of members that do, and then in
/// how many chunks they differ. It takes no memory, and fails only where the sink has failed.
pub fn check_list_report<S: Sink>(
    out: &mut S,
    chunks: Chunks,
    found: &Comparison,
) -> Result<(), SinkFault>
    requires { IsSized chunks found.now }
    ensures { PutsOrFails S.contents S.failed out.old out.new (list_text chunks found.now) result }
{
    chunk_lines(out, chunks, found)?;
    check_report(out, found.chunks.count())?;
    Ok(())
}

fn chunk_lines<S: Sink>(out: &mut S, chunks: Chunks, found: &Comparison) -> Result<(), SinkFault>
    requires { IsSized chunks found.now }
    ensures { PutsOrFails S.contents S.failed out.old out.new
        (flat_map (chunk_text chunks found.now) (range_with_len 0 found.now.chunks.chunks)) result }
{
    for c in 0..found.chunks.chunks() {
        chunk_where_set(out, chunks, found, c)?;
    }
    Ok(())
}

fn chunk_where_set<S: Sink>(
    out: &mut S,
    chunks: Chunks,
    found: &Comparison,
    c: u32,
) -> Result<(), SinkFault>
    requires all { IsSized chunks found.now }
    requires within { c < found.now.chunks.chunks }
    ensures { PutsOrFails S.contents S.failed out.old out.new (chunk_text chunks found.now c) result }
{
    if !found.chunks.is_marked(c) {
        return Ok(());
    }
    let (start, sectors) = chunks.range(c);
    chunk_line(out, start, start + sectors, found.pairs.as_slice(), c)
}

fn chunk_line<S: Sink>(
    out: &mut S,
    start: u64,
    end: u64,
    pairs: &[Pair],
    c: u32,
) -> Result<(), SinkFault>
    requires some { start ≤ end }
    requires within { All (λ pair. c < pair.chunks.chunks) pairs.now }
    ensures { PutsOrFails S.contents S.failed out.old out.new (chunk_line start end pairs.now c) result }
{
    right_aligned_number(out, 12, start)?;
    number_after(out, b" for ", end - start)?;
    out.put(b" sectors, members")?;
    pairs_where_set(out, pairs, c)?;
    out.put(b"\n")?;
    Ok(())
}

fn pairs_where_set<S: Sink>(out: &mut S, pairs: &[Pair], c: u32) -> Result<(), SinkFault>
    requires { All (λ pair. c < pair.chunks.chunks) pairs.now }
    ensures { PutsOrFails S.contents S.failed out.old out.new (flat_map (pair_in c) pairs.now) result }
{
    for pair in pairs {
        pair_where_set(out, pair, c)?;
    }
    Ok(())
}

fn pair_where_set<S: Sink>(out: &mut S, pair: &Pair, c: u32) -> Result<(), SinkFault>
    requires { c < pair.now.chunks.chunks }
    ensures { PutsOrFails S.contents S.failed out.old out.new (pair_in c pair.now) result }
{
    if !pair.chunks.is_marked(c) {
        return Ok(());
    }
    members(out, pair.one, pair.other)
}

// Two members that differ.
#[tactic(auto, unfolding(crate::specs::AsText::CheckReport::pair_text), using(md_streams::proofs::Puts::puts_then))]
fn members<S: Sink>(out: &mut S, one: usize, other: usize) -> Result<(), SinkFault>
    ensures { PutsOrFails S.contents S.failed out.old out.new (pair_text one other) result }
{
    number_after(out, b" ", one)?;
    number_after(out, b"!=", other)?;
    Ok(())
}
