// The command that compares the members in sync.
ghost use Rattle.std.specs.Prelude.{◌≡◌, MatchResult, OnOk};
ghost use Rattle.md_inflight.specs.Requests.Pending.{PendingView};
ghost use Rattle.md_state.specs.Requests.{IsPending};
ghost use Rattle.md_array.specs.Consistency.{IsConsistent};
ghost use Rattle.md_check.specs.Checking.{IsToldOfMembers};
ghost use Rattle.md_report.specs.AsJson.WholeArray.MemberObjects.{texts_of};
ghost use Rattle.md_report.specs.AsText.CheckReport.{list_text};
ghost use Rattle.md_commands.specs.Checking.{ChecksMembers, ListsMismatches, RefusesToCheck, RefusesToList, sectors_to_read};
ghost use Rattle.md_commands.specs.Objects.{checked_line};

use crate::objects::put_check_json;
use crate::output::{put_checked, put_listed};
use md_array::Mirror;
use md_check::{check_array, compare_members};
use md_device::Device;
use md_notices::in_sync_count;
use md_refusals::CommandFault;
use md_streams::{Sink, Watch};
use std::alloc::Global;
use std::thread::Threads;

/// Counts the chunks in which two members in sync differ in a sector that neither lists as bad, gives their count, and puts
/// it out in one line. Nothing is written, and the array may be one that is not resynced. `watch`
/// is told how many sectors there are to read, and of each read.
///
///     let mut out = Output::new(rt.stdout());
///     check_members(&rt, rt.alloc(), &mut mirror, &watch, &mut out)?; // puts out `mismatched chunks: 0`
pub fn check_members<D: Device + Drop + Send, W: Watch + Sync, S: Sink, T: Threads + Sync>(
    rt: &T,
    alloc: Global,
    mirror: &mut Mirror<D>,
    watch: &W,
    out: &mut S,
) -> Result<u32, CommandFault>
    requires sound { IsConsistent mirror.old }
    ensures gives { MatchResult result
        (λ count. ChecksMembers S.Sink count mirror.old mirror.new out.old out.new)
        (RefusesToCheck S.Sink mirror.old mirror.new out.old out.new) }
    ensures told { W.compares watch.now (sectors_to_read mirror.old.array) }
    ensures told_of_reads { OnOk result (IsToldOfMembers W.Gate watch.now mirror.old.array) }
    ensures sound { IsConsistent mirror.new }
    ensures pending { (p : PendingView) → IsPending mirror.old.array p → IsPending mirror.new.array p }
{
    watch.begins_check(sectors_to_read(mirror));
    let mismatched = check_array(rt, alloc, mirror, watch).map_err(CommandFault::Check)?;
    put_checked(mismatched, out)
}

/// Puts out the same after a line for each of these chunks, with the pairs of members that differ in it.
pub fn list_mismatches<D: Device + Drop + Send, W: Watch + Sync, S: Sink, T: Threads + Sync>(
    rt: &T,
    alloc: Global,
    mirror: &mut Mirror<D>,
    watch: &W,
    out: &mut S,
) -> Result<u32, CommandFault>
    requires sound { IsConsistent mirror.old }
    ensures gives { MatchResult result
        (λ count. ListsMismatches S.Sink (list_text mirror.old.array.chunks)
        count mirror.old mirror.new out.old out.new)
        (RefusesToList S.Sink mirror.old mirror.new out.old out.new) }
    ensures told { W.compares watch.now (sectors_to_read mirror.old.array) }
    ensures told_of_reads { OnOk result (IsToldOfMembers W.Gate watch.now mirror.old.array) }
    ensures sound { IsConsistent mirror.new }
    ensures pending { (p : PendingView) → IsPending mirror.old.array p → IsPending mirror.new.array p }
{
    watch.begins_check(sectors_to_read(mirror));
    let chunks = mirror.chunks();
    let found = compare_members(rt, alloc, mirror, watch).map_err(CommandFault::Check)?;
    put_listed(chunks, &found, out)
}

/// Puts out the same as a JSON object, of whose members these are the images.
pub fn check_members_json<D: Device + Drop + Send, W: Watch + Sync, S: Sink, T: Threads + Sync>(
    rt: &T,
    alloc: Global,
    mirror: &mut Mirror<D>,
    watch: &W,
    images: &[&str],
    out: &mut S,
) -> Result<u32, CommandFault>
    requires sound { IsConsistent mirror.old }
    ensures gives { MatchResult result
        (λ count. ListsMismatches S.Sink (checked_line mirror.old.array (texts_of images.now))
        count mirror.old mirror.new out.old out.new)
        (RefusesToList S.Sink mirror.old mirror.new out.old out.new) }
    ensures told { W.compares watch.now (sectors_to_read mirror.old.array) }
    ensures told_of_reads { OnOk result (IsToldOfMembers W.Gate watch.now mirror.old.array) }
    ensures sound { IsConsistent mirror.new }
    ensures pending { (p : PendingView) → IsPending mirror.old.array p → IsPending mirror.new.array p }
{
    watch.begins_check(sectors_to_read(mirror));
    let found = compare_members(rt, alloc, mirror, watch).map_err(CommandFault::Check)?;
    put_check_json(&found, mirror, images, out)
}

// How many sectors a check reads where none is listed as bad: those of the array, on each member in sync.
fn sectors_to_read<D: Device + Drop>(mirror: &Mirror<D>) -> u64
    ensures { result ≡ sectors_to_read mirror.now.array }
{
    let members = in_sync_count(mirror) as u64;
    members.saturating_mul(mirror.chunks().size)
}
