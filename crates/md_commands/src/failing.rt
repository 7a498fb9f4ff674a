// The command that fails a member.
ghost use Rattle.std.specs.Prelude.{MatchResult};
ghost use Rattle.md_inflight.specs.Requests.Pending.{PendingView};
ghost use Rattle.md_state.specs.Steps.Fail.{FailsMember};
ghost use Rattle.md_state.specs.Requests.{IsPending};
ghost use Rattle.md_array.specs.Consistency.{IsConsistent};
ghost use Rattle.md_report.specs.AsText.WholeArray.SummaryReport.{summary_text};
ghost use Rattle.md_commands.specs.Failing.{RefusesFailing, RefusesToFail};
ghost use Rattle.md_commands.specs.Stopping.{StopsArrayAfter};

use crate::named_member::named_member;
use crate::stopping::stop_array;
use md_array::Mirror;
use md_device::Device;
use md_refusals::CommandFault;
use md_streams::Sink;

/// Fails the member with this index, then stops the array, and puts out what it is in one line. It takes no
/// memory.
///
/// The superblock of the member stays as it is: that it is faulty stands in those of the others.
///
///     let mut out = Output::new(rt.stdout());
///     fail_member(&mut mirror, 1, &mut out)?; // puts out `in sync 1 of 2, events 4, marked 0`
pub fn fail_member<D: Device + Drop, S: Sink>(
    mirror: &mut Mirror<D>,
    member: u32,
    out: &mut S,
) -> Result<(), CommandFault>
    requires sound { IsConsistent mirror.old }
    ensures gives { MatchResult result
        (λ _. StopsArrayAfter S.Sink summary_text (FailsMember member mirror.old) mirror.new out.old out.new)
        (RefusesToFail S.Sink member mirror.old mirror.new out.old out.new) }
    ensures sound { IsConsistent mirror.new }
    ensures pending { (p : PendingView) → IsPending mirror.old.array p → IsPending mirror.new.array p }
{
    fail_named(mirror, member)?;
    stop_array(mirror, out)
}

// Fails the member with this index, in memory alone.
fn fail_named<D: Device + Drop>(mirror: &mut Mirror<D>, member: u32) -> Result<(), CommandFault>
    requires sound { IsConsistent mirror.old }
    ensures gives { MatchResult result
        (λ _. FailsMember member mirror.old mirror.new)
        (RefusesFailing member mirror.old mirror.new) }
    ensures sound { IsConsistent mirror.new }
    ensures pending { (p : PendingView) → IsPending mirror.old.array p → IsPending mirror.new.array p }
{
    let k = named_member(mirror, member)?;
    mirror.fail(k).map_err(CommandFault::Fail)
}
