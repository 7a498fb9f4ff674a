// The command that rebuilds a member.
ghost use Rattle.std.specs.Prelude.{◌≡◌, ◌<◌, MatchResult, length};
ghost use Rattle.md_kept_members.specs.View.{MemberView};
ghost use Rattle.md_inflight.specs.Requests.Pending.{PendingView};
ghost use Rattle.md_state.specs.Members.{IsMember};
ghost use Rattle.md_state.specs.Requests.{IsPending};
ghost use Rattle.md_array.specs.Consistency.{IsConsistent};
ghost use Rattle.md_copy.specs.Rebuilding.{Rebuilds, RefusesRebuild};
ghost use Rattle.md_commands.specs.Objects.{rebuilt_object_line};
ghost use Rattle.md_commands.specs.Rebuilding.{IsTakenUp, IsToRebuild, IsToldOfTakingUp, IsToldOfTotals, RebuildsArray, RebuildsResynced, RefusesReadied, RefusesToRebuild, rebuilt_shown};
ghost use Rattle.md_commands.specs.Stopping.{StopsAfter};

use crate::named_member::named_member;
use crate::objects::put_rebuilt_json;
use crate::output::put_rebuilt;
use crate::resyncing::resync_if_needed;
use md_array::Mirror;
use md_copy::{RebuildFault, Rebuilt, rebuild};
use md_device::Device;
use md_metadata::stop;
use md_refusals::CommandFault;
use md_streams::{Sink, Watch};
use std::alloc::Global;
use std::sync::Wait;
use std::thread::Threads;

/// Rebuilds the member with this index from all others at once, then stops the array, and puts out the plan of
/// each pass, unless `quiet`, and how many passes and orphans there were. A degraded array that is not resynced is resynced
/// first. `watch` is told how many chunks the member lacks, whether its rebuild is taken up, and of each read.
///
/// In memory stand two chunks of the array for each member that is read.
///
///     let mut out = Output::new(rt.stdout());
///     rebuild_member(&rt, rt.alloc(), &mut mirror, 2, false, &watch, &mut out)?; // ends with `rebuilt member 2, passes 1, orphans 0`
pub fn rebuild_member<D: Device + Drop + Send, W: Watch + Sync, S: Sink, T: Threads + Wait + Sync>(
    rt: &T,
    alloc: Global,
    mirror: &mut Mirror<D>,
    member: u32,
    quiet: bool,
    watch: &W,
    out: &mut S,
) -> Result<(), CommandFault>
    requires sound { IsConsistent mirror.old }
    ensures gives { MatchResult result
        (λ _. RebuildsArray S.Sink member mirror.old mirror.new out.old out.new (rebuilt_shown quiet member))
        (RefusesToRebuild S.Sink member mirror.old mirror.new out.old out.new) }
    ensures sound { IsConsistent mirror.new }
    ensures pending { (p : PendingView) → IsPending mirror.old.array p → IsPending mirror.new.array p }
{
    let k = named_member(mirror, member)?;
    let rebuilt = rebuild_and_stop(rt, alloc, mirror, k, watch)?;
    put_rebuilt(&rebuilt, member, quiet, out)
}

/// Rebuilds the member with this index as `rebuild_member` does, and puts out a JSON object: how many passes there were, and which
/// chunks are orphans.
pub fn rebuild_member_json<
    D: Device + Drop + Send,
    W: Watch + Sync,
    S: Sink,
    T: Threads + Wait + Sync,
>(
    rt: &T,
    alloc: Global,
    mirror: &mut Mirror<D>,
    member: u32,
    watch: &W,
    out: &mut S,
) -> Result<(), CommandFault>
    requires sound { IsConsistent mirror.old }
    ensures gives { MatchResult result
        (λ _. RebuildsArray S.Sink member mirror.old mirror.new out.old out.new (rebuilt_object_line member))
        (RefusesToRebuild S.Sink member mirror.old mirror.new out.old out.new) }
    ensures sound { IsConsistent mirror.new }
    ensures pending { (p : PendingView) → IsPending mirror.old.array p → IsPending mirror.new.array p }
{
    let k = named_member(mirror, member)?;
    let told = rebuild_and_stop(rt, alloc, mirror, k, watch)?;
    put_rebuilt_json(&told, member, out)
}

// Rebuilds member k, after a resync where it is needed, and stops the array.
fn rebuild_and_stop<D: Device + Drop + Send, W: Watch + Sync, T: Threads + Wait + Sync>(
    rt: &T,
    alloc: Global,
    mirror: &mut Mirror<D>,
    k: usize,
    watch: &W,
) -> Result<Rebuilt, CommandFault>
    requires member { k < length mirror.old.array.members }
    requires sound { IsConsistent mirror.old }
    ensures gives { MatchResult result
        (λ rebuilt. StopsAfter (RebuildsResynced k rebuilt mirror.old) mirror.new)
        (RefusesReadied k mirror.old mirror.new) }
    ensures sound { IsConsistent mirror.new }
    ensures pending { (p : PendingView) → IsPending mirror.old.array p → IsPending mirror.new.array p }
{
    resync_if_needed(alloc, mirror).map_err(CommandFault::Resync)?;
    let rebuilt = rebuild_watched(rt, alloc, mirror, k, watch).map_err(CommandFault::Rebuild)?;
    stop(mirror).map_err(CommandFault::Stop)?;
    Ok(rebuilt)
}

/// Rebuilds member k. `watch` is told how many chunks it lacks and which is the first, whether its rebuild is taken up, and of each read.
pub(crate) fn rebuild_watched<D: Device + Drop + Send, W: Watch + Sync, T: Threads + Wait + Sync>(
    rt: &T,
    alloc: Global,
    mirror: &mut Mirror<D>,
    k: usize,
    watch: &W,
) -> Result<Rebuilt, RebuildFault>
    requires member { k < length mirror.old.array.members }
    requires sound { IsConsistent mirror.old }
    ensures gives { MatchResult result
        (λ rebuilt. Rebuilds k rebuilt mirror.old mirror.new)
        (RefusesRebuild k mirror.old mirror.new) }
    ensures begins { (m : MemberView) → IsMember mirror.old.array k m
        → IsToldOfTotals W.lacks watch.now mirror.old.array m }
    ensures taken_up { (m : MemberView) → IsMember mirror.old.array k m → IsTakenUp mirror.old.array m
        → IsToldOfTakingUp W.taken_up watch.now mirror.old.array k m }
    ensures sound { IsConsistent mirror.new }
    ensures pending { (p : PendingView) → IsPending mirror.old.array p → IsPending mirror.new.array p }
{
    let lacked = chunks_lacked(mirror, k);
    watch.begins(lacked.0, lacked.1);
    tell_if_taken_up(mirror, k, lacked.0, lacked.1, watch);
    rebuild(rt, alloc, mirror, k, watch)
}

/// Tells the watch that the rebuild of member k is taken up, where it is: it lacks so many chunks, of which this is the first.
pub(crate) fn tell_if_taken_up<D: Device + Drop, W: Watch>(
    mirror: &Mirror<D>,
    k: usize,
    missing: u32,
    first: Option<u32>,
    watch: &W,
)
    requires member { k < length mirror.now.array.members }
    requires missing { (m : MemberView) → IsMember mirror.now.array k m
        → IsToRebuild mirror.now.array m missing first }
    ensures { (m : MemberView) → IsMember mirror.now.array k m → IsTakenUp mirror.now.array m
        → IsToldOfTakingUp W.taken_up watch.now mirror.now.array k m }
{
    let chunks = mirror.chunks().count();
    if mirror.state(k).is_recovering() && missing < chunks {
        watch.takes_up(k, missing, first, chunks);
    }
}

/// How many chunks member k lacks, and the first of them. It takes no memory.
pub(crate) fn chunks_lacked<D: Device + Drop>(mirror: &Mirror<D>, k: usize) -> (u32, Option<u32>)
    requires member { k < length mirror.now.array.members }
    requires sound { IsConsistent mirror.now }
    ensures { (m : MemberView) → IsMember mirror.now.array k m
        → IsToRebuild mirror.now.array m result.0 result.1 }
{
    let mut count = 0;
    let mut first = None;
    for chunk in 0..mirror.chunks().count() {
        if mirror.is_missing(k, chunk) {
            count += 1;
            first = first.or(Some(chunk));
        }
    }
    (count, first)
}
