// The collector takes what the workers of a turn reported.
ghost use Rattle.std.specs.Prelude.{◌≡◌, ◌+◌, ◌*◌, ◌-◌, ◌<◌, ◌≤◌, [], ℕ, List, None, length, min, IfNone, IfSome, OnErr, OnOk, slice_index_or};
ghost use Rattle.std.specs.List.{All};
ghost use Rattle.md_collect.specs.Places.{HasRoom, IsChunk, bytes_of_chunk, start_of};
ghost use Rattle.md_collect.specs.Reading.{CountsFailure};
ghost use Rattle.md_collect.specs.Collecting.{IsCounted, report_refusal};
ghost use Rattle.md_collect.specs.Targets.{KeepsCopy};
ghost use Rattle.md_collect.specs.declared.workers.queue.Queue.{Queue};
ghost use Rattle.md_pass.specs.Beside.{WritesBeside};
ghost use Rattle.md_pass.specs.Joining.{FitsOn, GrowsByFirst, HaveJoinedReports, IsFollowed, IsFollowedFirst, IsPassJoining, TakesOneReport, WritesWithin, as_if_written, none_waiting, stage_of, total_waiting};
ghost use Rattle.md_pass.specs.TakingReports.{Books, books, IsAllowed, AreReportsTaken};
ghost use Rattle.md_pass.specs.Handing.{AreHanded, HaveTakenReports, all_with_reports};
ghost use Rattle.md_pass.specs.Passes.{IsPassing};

use crate::joined::{Joined, few_bytes};
use md_bitmap::Marks;
use md_collect::{Collector, Report, Reports};
use md_device::{Device, WriteFault};
use std::sync::ledger::Ledger;

// The collector takes the report. Few bytes of a chunk wait with the others, many are written.
fn take_one<D: Device>(
    collector: &mut Collector,
    target: &mut D,
    joined: &mut Joined,
    report: &Report,
) -> Result<(), WriteFault>
    requires room { HasRoom (D.content target.old) collector.old.offset collector.old.chunks }
    requires counts { report_refusal collector.old report.now ≡ None }
    requires chunk { IsChunk collector.old.chunks report.now.chunk }
    requires fits { FitsOn (D.content target.old) joined.old }
    requires followed { IsFollowed collector.old joined.old report.now }

    ensures kept { KeepsCopy collector.old collector.new }
    ensures counted { OnOk result (IsCounted report.now.chunk collector.old collector.new) }
    ensures taken { OnOk result (TakesOneReport (D.honest target.old) collector.old report.now
        (D.content target.old) (D.content target.new) joined.old joined.new) }
    ensures failed { OnErr result (CountsFailure D.Device target.old target.new) }
    ensures none_failed { OnOk result (D.faults target.new ≡ D.faults target.old) }
    ensures within { WritesWithin D.Device (512 * (collector.old.offset + start_of collector.old.chunks report.now.chunk))
        (bytes_of_chunk collector.old.chunks report.now.chunk) target.old target.new }
{
    // For the proof: a device has at most 2^54 sectors.
    let _limit = target.sectors();
    let Some(bytes) = few_bytes(report) else {
        if collector.take_ref(target, report).is_err() {
            return Err(WriteFault);
        }
        return Ok(());
    };
    joined.join(collector.sector_of(report.chunk()), bytes);
    collector.count(report);
    Ok(())
}

// The collector takes the report that waits first, if one waits. The chunk is marked as copied where its
// bytes were delivered, also while they wait to be written.
fn take_report<D: Device>(
    collector: &mut Collector,
    target: &mut D,
    copied: &mut Marks,
    joined: &mut Joined,
    reports: &mut Reports,
) -> Result<(), WriteFault>
    requires room { HasRoom (D.content target.old) collector.old.offset collector.old.chunks }
    requires allowed { IsAllowed collector.old copied.old reports.old.waiting }
    requires fits { FitsOn (D.content target.old) joined.old }
    requires followed { IsFollowedFirst collector.old joined.old reports.old.waiting }

    ensures reports_taken { OnOk result (AreReportsTaken (D.honest target.old)
        (books collector.old (as_if_written (D.content target.old) joined.old) copied.old)
        (books collector.new (as_if_written (D.content target.new) joined.new) copied.new) reports.old reports.new reports.old.waiting) }
    ensures fits { OnOk result (FitsOn (D.content target.new) joined.new) }
    ensures grows { OnOk result (GrowsByFirst collector.old reports.old.waiting joined.old joined.new) }
    ensures failed { OnErr result (CountsFailure D.Device target.old target.new) }
    ensures none_failed { OnOk result (D.faults target.new ≡ D.faults target.old) }
    ensures writes { WritesBeside D.Device collector.old collector.new target.old target.new }
{
    let Some(report) = reports.first() else {
        return Ok(());
    };
    take_one(collector, target, joined, report)?;
    let chunk = report.chunk();
    let failed = report.is_failed();
    reports.retire();
    if failed {
        return Ok(());
    }
    copied.mark(chunk);
    Ok(())
}

// The collector takes the report of this queue that waits first. What waits to be written is written before,
// unless the report's bytes lie behind it.
fn take_next<D: Device, L: Ledger, M: Ledger>(
    collector: &mut Collector,
    target: &mut D,
    copied: &mut Marks,
    joined: &mut Joined,
    waiting: &mut Vec<Reports>,
    k: usize,
) -> Result<(), WriteFault>
    requires queue { k < length waiting.old.items }
    requires joining { (firsts : List (Queue D L M)) × (queues : List (Queue D L M)) × (first : Books) × AreHanded queues waiting.old.items
        × IsPassJoining D.Device (D.honest target.old) firsts (all_with_reports queues waiting.old.items) first
        (stage_of collector.old (D.content target.old) joined.old copied.old) }

    ensures reports_taken { OnOk result (HaveJoinedReports D.Device L M (D.honest target.old)
        (stage_of collector.old (D.content target.old) joined.old copied.old)
        (stage_of collector.new (D.content target.new) joined.new copied.new) waiting.old.items waiting.new.items) }
    ensures taken { OnOk result (total_waiting waiting.new.items + min 1 (length (slice_index_or waiting.old.items k none_waiting).waiting)
        ≡ total_waiting waiting.old.items) }
    ensures failed { OnErr result (CountsFailure D.Device target.old target.new) }
    ensures none_failed { OnOk result (D.faults target.new ≡ D.faults target.old) }
    ensures writes { WritesBeside D.Device collector.old collector.new target.old target.new }
{
    joined.write_unless_followed(collector, target, &waiting[k])?;
    take_report(collector, target, copied, joined, &mut waiting[k])
}

/// The collector takes all reports that wait, that of the lowest chunk next: so what lies together is taken
/// together. Then all that was delivered is written.
pub(crate) fn take_reports<D: Device, L: Ledger, M: Ledger>(
    collector: &mut Collector,
    target: &mut D,
    copied: &mut Marks,
    joined: &mut Joined,
    waiting: &mut Vec<Reports>,
) -> Result<(), WriteFault>
    requires { (firsts : List (Queue D L M)) × (queues : List (Queue D L M)) × (first : Books) × AreHanded queues waiting.old.items
        × IsPassing D.Device (D.honest target.old) firsts (all_with_reports queues waiting.old.items) first
        (books collector.old (D.content target.old) copied.old) }

    ensures reports_taken { OnOk result (HaveTakenReports D.Device L M (D.honest target.old)
        (books collector.old (D.content target.old) copied.old)
        (books collector.new (D.content target.new) copied.new) waiting.old.items waiting.new.items) }
    ensures taken { OnOk result (All (λ reports. reports.waiting ≡ []) waiting.new.items) }
    ensures failed { OnErr result (CountsFailure D.Device target.old target.new) }
    ensures none_failed { OnOk result (D.faults target.new ≡ D.faults target.old) }
    ensures writes { WritesBeside D.Device collector.old collector.new target.old target.new }
{
    joined.clear();
    while let Some(k) = lowest(waiting.as_slice()) {
        take_next::<D, L, M>(collector, target, copied, joined, waiting, k)?;
    }
    joined.write(target)
}

// The queue whose first report that waits has the lowest chunk, if one waits.
fn lowest(waiting: &[Reports]) -> Option<usize>
    ensures some { IfSome result (λ k. (k < length waiting.now) × (0 < length (slice_index_or waiting.now k none_waiting).waiting)) }
    ensures none { IfNone result (All (λ reports. reports.waiting ≡ []) waiting.now) }
{
    let mut found = None;
    let mut least = u32::MAX;
    for k in 0..waiting.len() {
        if let Some(report) = waiting[k].first() {
            let chunk = report.chunk();
            if found.is_none() || chunk < least {
                found = Some(k);
                least = chunk;
            }
        }
    }
    found
}
