// What is said of sectors that were not given, and for which zeros or what another member has was put out. No line takes memory.
ghost use Rattle.std.specs.Prelude.{◌≡◌, ◌+◌, ◌-◌, ◌^◌, ◌<◌, ◌≤◌, ◌++◌, length};
ghost use Rattle.std.specs.List.{flat_map};
ghost use Rattle.md_badblocks.specs.Runs.{IsCanonical};
ghost use Rattle.md_streams.specs.Sink.{PutsOrFails};
ghost use Rattle.md_words.specs.Asks.{ask_of};
ghost use Rattle.md_messages.specs.Missing.{after_count, after_one, after_several, between_text, count_if_several, count_text, gap_lines, gaps_told, gaps_text, gap_text, runs_text, gap_count, several_text, single_text};

use md_badblocks::{BadSet, Run};
use md_streams::{Gaps, Sink, SinkFault, number_after};
use md_words::Command;

/// What stands in the place of sectors that were not given.
#[derive(Clone, Copy)]
pub(crate) enum Stands {
    /// Zeros.
    Zeros,
    /// What another member has.
    Others,
}

impl Stands {
    // What is said after one sector, after several, and after how many there are.
    fn after_one(self) -> &'static [u8]
        ensures { result.now ≡ after_one self }
    {
        match self {
            Stands::Zeros => b" of the array is missing: zeros stand in its place\n",
            Stands::Others => { b" of the array may be older or newer: it is another member's\n" }
        }
    }

    fn after_several(self) -> &'static [u8]
        ensures { result.now ≡ after_several self }
    {
        match self {
            Stands::Zeros => b" of the array are missing: zeros stand in their place\n",
            Stands::Others => {
                b" of the array may be older or newer: they are another member's\n"
            }
        }
    }

    fn after_count(self) -> &'static [u8]
        ensures { result.now ≡ after_count self }
    {
        match self {
            Stands::Zeros => b" runs are missing\n",
            Stands::Others => b" runs may be older or newer\n",
        }
    }
}

/// Says which sectors of the array a command put out otherwise than they were asked for, where it was to fill them, in a line for each
/// run of them, and how many they are: first those for which it put out zeros, then those that are another member's. It fails only
/// where the output has failed, as all here does.
pub fn put_gap_lines<S: Sink>(
    out: &mut S,
    command: Command<'_>,
    gaps: &Option<Gaps>,
) -> Result<(), SinkFault>
    ensures { PutsOrFails S.contents S.failed out.old out.new
        (gap_lines (ask_of command.entry) gaps.now) result }
{
    if !command.fills() {
        return out.put(b"");
    }
    put_gaps_of(out, gaps)
}

fn put_gaps_of<S: Sink>(out: &mut S, gaps: &Option<Gaps>) -> Result<(), SinkFault>
    ensures { PutsOrFails S.contents S.failed out.old out.new (gaps_told gaps.now) result }
{
    match gaps {
        Some(gaps) => put_gaps(out, gaps),
        None => out.put(b""),
    }
}

fn put_gaps<S: Sink>(out: &mut S, gaps: &Gaps) -> Result<(), SinkFault>
    ensures { PutsOrFails S.contents S.failed out.old out.new (gaps_text gaps.now) result }
{
    put_set(out, Stands::Zeros, &gaps.missing)?;
    put_set(out, Stands::Others, &gaps.others)?;
    Ok(())
}

fn put_set<S: Sink>(out: &mut S, stands: Stands, set: &BadSet) -> Result<(), SinkFault>
    ensures { PutsOrFails S.contents S.failed out.old out.new (runs_text stands set.now) result }
{
    put_runs(out, stands, set.runs())
}

fn put_runs<S: Sink>(out: &mut S, stands: Stands, runs: &[Run]) -> Result<(), SinkFault>
    requires { IsCanonical runs.now }
    ensures { PutsOrFails S.contents S.failed out.old out.new (runs_text stands runs.now) result }
{
    run_lines(out, stands, runs)?;
    count_line(out, stands, runs)?;
    Ok(())
}

fn run_lines<S: Sink>(out: &mut S, stands: Stands, runs: &[Run]) -> Result<(), SinkFault>
    requires { IsCanonical runs.now }
    ensures { PutsOrFails S.contents S.failed out.old out.new (flat_map (gap_text stands) runs.now) result }
{
    for run in runs {
        run_line(out, stands, run)?;
    }
    Ok(())
}

fn run_line<S: Sink>(out: &mut S, stands: Stands, run: &Run) -> Result<(), SinkFault>
    requires some { 0 < run.now.len }
    requires fits { run.now.start + run.now.len ≤ 2 ^ 54 }
    ensures { PutsOrFails S.contents S.failed out.old out.new (gap_text stands run.now) result }
{
    if run.len == 1 {
        sector_line(out, stands, run.start)
    } else {
        sectors_line(out, stands, run.start, run.start + run.len - 1)
    }
}

fn sector_line<S: Sink>(out: &mut S, stands: Stands, sector: u64) -> Result<(), SinkFault>
    ensures { PutsOrFails S.contents S.failed out.old out.new (single_text stands sector) result }
{
    number_after(out, b"mdcli: sector ", sector)?;
    out.put(stands.after_one())?;
    Ok(())
}

fn sectors_line<S: Sink>(
    out: &mut S,
    stands: Stands,
    first: u64,
    last: u64,
) -> Result<(), SinkFault>
    ensures { PutsOrFails S.contents S.failed out.old out.new (several_text stands first last) result }
{
    first_to_last(out, first, last)?;
    out.put(stands.after_several())?;
    Ok(())
}

fn first_to_last<S: Sink>(out: &mut S, first: u64, last: u64) -> Result<(), SinkFault>
    ensures { PutsOrFails S.contents S.failed out.old out.new (between_text first last) result }
{
    number_after(out, b"mdcli: sectors ", first)?;
    number_after(out, b" to ", last)?;
    Ok(())
}

// How many sectors there are, where there are several runs.
fn count_line<S: Sink>(out: &mut S, stands: Stands, runs: &[Run]) -> Result<(), SinkFault>
    requires { IsCanonical runs.now }
    ensures { PutsOrFails S.contents S.failed out.old out.new
        (count_if_several stands runs.now) result }
{
    if runs.len() > 1 {
        put_count(out, stands, gap_count(runs), runs.len())
    } else {
        out.put(b"")
    }
}

fn gap_count(runs: &[Run]) -> u64
    requires { IsCanonical runs.now }
    ensures { result ≡ gap_count runs.now }
{
    let mut sectors = 0;
    for run in runs {
        sectors += run.len;
    }
    sectors
}

fn put_count<S: Sink>(
    out: &mut S,
    stands: Stands,
    sectors: u64,
    runs: usize,
) -> Result<(), SinkFault>
    ensures { PutsOrFails S.contents S.failed out.old out.new (count_text stands sectors runs) result }
{
    number_after(out, b"mdcli: ", sectors)?;
    number_after(out, b" sectors in ", runs)?;
    out.put(stands.after_count())?;
    Ok(())
}
