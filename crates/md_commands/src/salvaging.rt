// The command that rebuilds a member, and lists bad sectors, and not their chunks.
ghost use Rattle.std.specs.Prelude.{◌≡◌, ◌<◌, MatchResult, length};
ghost use Rattle.md_kept_members.specs.View.{MemberView};
ghost use Rattle.md_inflight.specs.Requests.Pending.{PendingView};
ghost use Rattle.md_state.specs.Members.{IsMember};
ghost use Rattle.md_state.specs.Requests.{IsPending};
ghost use Rattle.md_array.specs.Consistency.{IsConsistent};
ghost use Rattle.md_copy.specs.Salvaging.Steps.{RefusesSalvage, Salvages};
ghost use Rattle.md_commands.specs.Rebuilding.{IsTakenUp, IsToldOfTakingUp, IsToldOfTotals};
ghost use Rattle.md_commands.specs.Salvaging.{RefusesSalvaging, RefusesToSalvage, SalvagesArray, SalvagesResynced, salvaged_object_line, salvaged_shown};
ghost use Rattle.md_commands.specs.Stopping.{StopsAfter};

use crate::named_member::named_member;
use crate::objects::put_salvaged_json;
use crate::output::put_salvaged;
use crate::rebuilding::{chunks_lacked, tell_if_taken_up};
use crate::setting_aside::resync_to_salvage;
use md_array::Mirror;
use md_copy::{RebuildFault, Salvaged, salvage};
use md_device::Device;
use md_metadata::stop;
use md_refusals::CommandFault;
use md_streams::{Sink, Watch};
use std::alloc::Global;
use std::sync::Wait;
use std::thread::Threads;

/// Rebuilds the member with this index as `rebuild_member` does, but loses sectors alone: a chunk that can't be read whole is
/// taken sector by sector from all members in sync. Then it stops the array, and puts out the plan of the pass, unless `quiet`,
/// how many sectors none of them gave, the first of these, and how many were listed besides. `watch` is told as of a rebuild.
///
/// In memory stand two chunks of the array for each member that is read.
///
///     let mut out = Output::new(rt.stdout());
///     salvage_member(&rt, rt.alloc(), &mut mirror, 2, true, &watch, &mut out)?; // puts out `rebuilt member 2, passes 1, lost sectors 1, first 9, listed besides 0`
pub fn salvage_member<D: Device + Drop + Send, W: Watch + Sync, S: Sink, T: Threads + Wait + Sync>(
    rt: &T,
    alloc: Global,
    mirror: &mut Mirror<D>,
    member: u32,
    quiet: bool,
    watch: &W,
    out: &mut S,
) -> Result<(), CommandFault>
    requires sound { IsConsistent mirror.old }
    ensures gives { MatchResult result
        (λ _. SalvagesArray S.Sink member mirror.old mirror.new out.old out.new (salvaged_shown quiet member))
        (RefusesToSalvage S.Sink member mirror.old mirror.new out.old out.new) }
    ensures sound { IsConsistent mirror.new }
    ensures pending { (p : PendingView) → IsPending mirror.old.array p → IsPending mirror.new.array p }
{
    let k = named_member(mirror, member)?;
    let salvaged = salvage_and_stop(rt, alloc, mirror, k, watch)?;
    put_salvaged(&salvaged, member, quiet, out)
}

/// Rebuilds the member with this index as `salvage_member` does, and puts out a JSON object: how many sectors no member in sync
/// gave, how many were listed besides, and the runs of those that none gave.
pub fn salvage_member_json<
    D: Device + Drop + Send,
    W: Watch + Sync,
    S: Sink,
    T: Threads + Wait + Sync,
>(
    rt: &T,
    alloc: Global,
    mirror: &mut Mirror<D>,
    member: u32,
    watch: &W,
    out: &mut S,
) -> Result<(), CommandFault>
    requires sound { IsConsistent mirror.old }
    ensures gives { MatchResult result
        (λ _. SalvagesArray S.Sink member mirror.old mirror.new out.old out.new (salvaged_object_line member))
        (RefusesToSalvage S.Sink member mirror.old mirror.new out.old out.new) }
    ensures sound { IsConsistent mirror.new }
    ensures pending { (p : PendingView) → IsPending mirror.old.array p → IsPending mirror.new.array p }
{
    let k = named_member(mirror, member)?;
    let told = salvage_and_stop(rt, alloc, mirror, k, watch)?;
    put_salvaged_json(&told, member, out)
}

// Salvages member k, after a resync where it is needed, and stops the array.
fn salvage_and_stop<D: Device + Drop + Send, W: Watch + Sync, T: Threads + Wait + Sync>(
    rt: &T,
    alloc: Global,
    mirror: &mut Mirror<D>,
    k: usize,
    watch: &W,
) -> Result<Salvaged, CommandFault>
    requires member { k < length mirror.old.array.members }
    requires sound { IsConsistent mirror.old }
    ensures gives { MatchResult result
        (λ salvaged. StopsAfter (SalvagesResynced k salvaged mirror.old) mirror.new)
        (RefusesSalvaging k mirror.old mirror.new) }
    ensures sound { IsConsistent mirror.new }
    ensures pending { (p : PendingView) → IsPending mirror.old.array p → IsPending mirror.new.array p }
{
    resync_to_salvage(alloc, mirror).map_err(CommandFault::Resync)?;
    let salvaged = salvage_watched(rt, alloc, mirror, k, watch).map_err(CommandFault::Rebuild)?;
    stop(mirror).map_err(CommandFault::Stop)?;
    Ok(salvaged)
}

// Salvages member k. `watch` is told how many chunks it lacks and which is the first, whether its rebuild is taken up, and of each read
// of the pass.
fn salvage_watched<D: Device + Drop + Send, W: Watch + Sync, T: Threads + Wait + Sync>(
    rt: &T,
    alloc: Global,
    mirror: &mut Mirror<D>,
    k: usize,
    watch: &W,
) -> Result<Salvaged, RebuildFault>
    requires member { k < length mirror.old.array.members }
    requires sound { IsConsistent mirror.old }
    ensures gives { MatchResult result
        (λ salvaged. Salvages k salvaged mirror.old mirror.new)
        (RefusesSalvage k mirror.old mirror.new) }
    ensures begins { (m : MemberView) → IsMember mirror.old.array k m
        → IsToldOfTotals W.lacks watch.now mirror.old.array m }
    ensures taken_up { (m : MemberView) → IsMember mirror.old.array k m → IsTakenUp mirror.old.array m
        → IsToldOfTakingUp W.taken_up watch.now mirror.old.array k m }
    ensures sound { IsConsistent mirror.new }
    ensures pending { (p : PendingView) → IsPending mirror.old.array p → IsPending mirror.new.array p }
{
    let lacked = chunks_lacked(mirror, k);
    watch.begins(lacked.0, lacked.1);
    tell_if_taken_up(mirror, k, lacked.0, lacked.1, watch);
    salvage(rt, alloc, mirror, k, watch)
}
