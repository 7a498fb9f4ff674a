// What is left of a read that was interrupted.
ghost use Rattle.std.specs.Prelude.{◌≡◌, IfOk, unwrap_or};
ghost use Rattle.md_streams.specs.Gaps.{HasBothGaps, no_gaps};
ghost use Rattle.md_cli.specs.Performing.{AnswersGaps, EndsOutput, JoinsEarlier, rest_from};

use md_read_commands::{add_all, first_gap, has_put_all};
use md_refusals::CommandFault;
use md_streams::{Gaps, Sink};
use std::alloc::AllocError;

/// The sector from which a read goes on of which so many stand already.
pub(crate) fn rest_from(sector: u64, stands: u64) -> u64
    ensures { result ≡ rest_from sector stands }
{
    sector.saturating_add(stands)
}

/// Ends a read of which all sectors stand already: nothing is put out.
pub(crate) fn end_output<S: Sink>(gaps: &Option<Gaps>, out: &mut S) -> Result<(), CommandFault>
    ensures ends { EndsOutput S.Sink out.old out.new (AnswersGaps (unwrap_or gaps.now no_gaps)) result }
    ensures flushed { IfOk result (λ _. S.is_flushed out.new) }
{
    out.put(b"")?;
    out.flush()?;
    match gaps {
        Some(gaps) => answer_gaps(gaps),
        None => Ok(()),
    }
}

/// What was not given to a read and to the one before it, and its answer with that: where all is put out, the first of all. Where there
/// is no memory to join the two that is the answer.
pub(crate) fn with_earlier(
    was: Option<Gaps>,
    gaps: Option<Gaps>,
    done: Result<(), CommandFault>,
) -> (Option<Gaps>, Result<(), CommandFault>)
    ensures { JoinsEarlier was gaps done result.0 result.1 }
{
    let Some(was) = was else {
        return (gaps, done);
    };
    let Some(gaps) = gaps else {
        return (None, done);
    };
    let Ok(all) = join_gaps(was, &gaps) else {
        return (Some(gaps), Err(CommandFault::NoMemory));
    };
    if !has_put_all(&done) {
        return (Some(all), done);
    }
    let answer = answer_gaps(&all);
    (Some(all), answer)
}

// The sectors of both, each kind for itself, where there is memory for them.
fn join_gaps(mut one: Gaps, other: &Gaps) -> Result<Gaps, AllocError>
    ensures { IfOk result (λ both. HasBothGaps one other.now both) }
{
    add_all(&mut one.missing, other.missing.runs())?;
    add_all(&mut one.others, other.others.runs())?;
    Ok(one)
}

// Says which sector is the first that was not given, if one was not.
fn answer_gaps(gaps: &Gaps) -> Result<(), CommandFault>
    ensures { AnswersGaps gaps.now result }
{
    first_gap(gaps).map_err(CommandFault::Read)
}
