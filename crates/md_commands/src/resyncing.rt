// The command that resynchronises an array, and the resync before another one.
ghost use Rattle.std.specs.Prelude.{MatchResult};
ghost use Rattle.md_inflight.specs.Requests.Pending.{PendingView};
ghost use Rattle.md_state.specs.Requests.{IsPending};
ghost use Rattle.md_array.specs.Consistency.{IsConsistent};
ghost use Rattle.md_commands.specs.Resyncing.{RefusesNeededResync, RefusesToResync, ResyncsArray, ResyncsIfNeeded};

use crate::output::put_summary;
use md_array::Mirror;
use md_device::Device;
use md_metadata::stop;
use md_refusals::CommandFault;
use md_resync::{ResyncFault, resync};
use md_streams::Sink;
use std::alloc::Global;

/// Resynchronises an array, stops it, and puts out what it is then in one line.
pub fn resync_array<D: Device + Drop, S: Sink>(
    alloc: Global,
    mirror: &mut Mirror<D>,
    out: &mut S,
) -> Result<(), CommandFault>
    requires sound { IsConsistent mirror.old }
    ensures gives { MatchResult result
        (λ _. ResyncsArray S.Sink mirror.old mirror.new out.old out.new)
        (RefusesToResync S.Sink mirror.old mirror.new out.old out.new) }
    ensures sound { IsConsistent mirror.new }
    ensures pending { (p : PendingView) → IsPending mirror.old.array p → IsPending mirror.new.array p }
{
    resync(alloc, mirror).map_err(CommandFault::Resync)?;
    stop(mirror).map_err(CommandFault::Stop)?;
    put_summary(mirror, out)
}

/// Resynchronises an array whose sectors can't be read or written before: one that is degraded, and in which members in sync may
/// differ. Any other is left alone. It is the resync before a read, a write, a rebuild or a re-add.
///
///     resync_if_needed(alloc, &mut mirror)?;
pub fn resync_if_needed<D: Device + Drop>(
    alloc: Global,
    mirror: &mut Mirror<D>,
) -> Result<(), ResyncFault>
    requires sound { IsConsistent mirror.old }
    ensures gives { MatchResult result
        (λ _. ResyncsIfNeeded mirror.old mirror.new)
        (RefusesNeededResync mirror.old mirror.new) }
    ensures sound { IsConsistent mirror.new }
    ensures pending { (p : PendingView) → IsPending mirror.old.array p → IsPending mirror.new.array p }
{
    if mirror.degraded() && !mirror.resynced() {
        return resync(alloc, mirror);
    }
    Ok(())
}
