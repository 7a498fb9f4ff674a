// What is delivered of planned chunks goes to the target, each chunk once.
ghost use Rattle.std.specs.Prelude.{◌≡◌, ◌+◌, ◌^◌, ◌<◌, ◌≤◌, Err, IfNone, IfOk, None, OnOk};
ghost use Rattle.md_device.specs.Failing.{OnlyWritesFailed};
ghost use Rattle.md_collect.specs.Places.{HasRoom, IsChunk, start_of};
ghost use Rattle.md_collect.specs.Reports.{has_length};
ghost use Rattle.md_collect.specs.Reading.{CountsFailure};
ghost use Rattle.md_collect.specs.Collecting.{ArePlanned, CollectorView, IsCounted, IsUnreported, report_refusal, reports_of};
ghost use Rattle.md_collect.specs.Targets.{ChangesChunk, FailsChunkWrite, HoldsReport, KeepsCopy, LeavesBesideChunk, RefusesFirst, SpoilsAtFault, TakesStep};

use crate::planned::is_planned;
use crate::refusal::Refusal;
use crate::report::Report;
use md_bitmap::{Chunks, Marks};
use md_cert::{Plan, Slot};
use md_device::Device;
use std::alloc::{AllocError, Global};
use std::marker::Model;

/// Writes what is delivered of planned chunks to the target, each chunk once.
#[derive(Debug, Drop)]
pub struct Collector {
    slots: Vec<Slot>,
    chunks: Chunks,
    offset: u64,
    reported: Marks,
    spoiled: bool,
}

impl Model for Collector {
    ghost use Rattle.std.specs.Prelude.{◌≡◌};
    ghost use Rattle.std.specs.Int.{div_ceil};
    ghost use Rattle.md_collect.specs.Collecting.{CollectorView, ArePlanned};

    ghost Value = { CollectorView };

    ghost view = { λ c. record { slots = c.slots.items; chunks = c.chunks; offset = c.offset; reported = c.reported; spoiled = c.spoiled } };

    ghost invariant = { λ c. (c.reported.chunks ≡ div_ceil c.chunks.size c.chunks.sectors) × ArePlanned c.chunks c.slots.items };
}

impl Collector {
    /// A collector for the chunks of a plan. The target's data start at sector `offset` of its device.
    pub fn new(
        alloc: Global,
        plan: &Plan,
        chunks: Chunks,
        offset: u64,
    ) -> Result<Collector, AllocError>
        requires { ArePlanned chunks plan.now.slots }
        ensures slots { IfOk result (λ c. c.slots ≡ plan.now.slots) }
        ensures chunks { IfOk result (λ c. c.chunks ≡ chunks) }
        ensures offset { IfOk result (λ c. c.offset ≡ offset) }
        ensures fresh { IfOk result IsUnreported }
    {
        Ok(Collector {
            slots: Vec::from_slice(alloc, plan.slots.as_slice())?,
            chunks,
            offset,
            reported: Marks::none(alloc, chunks.count())?,
            spoiled: false,
        })
    }

    /// Takes a report. Where it counts, its bytes are written to the target. It takes no memory.
    ///
    /// A refusal changes nothing, but for `TargetFault`, where the write of this very chunk failed: after it the
    /// chunk may hold any bytes, and no later report counts.
    pub fn take<D: Device>(&mut self, target: &mut D, report: Report) -> Result<(), Refusal>
        requires { HasRoom (D.content target.old) self.old.offset self.old.chunks }

        ensures refused { RefusesFirst self.old self.new target.old target.new report result }
        ensures counts { OnOk result (report_refusal self.old report ≡ None) }
        ensures ok { OnOk result (IsCounted report.chunk self.old self.new) }
        ensures bytes { OnOk result (HoldsReport D.Device self.old target.old target.new report) }
        ensures unwritten { report.bytes ≡ None → target.new ≡ target.old }
        ensures fault { SpoilsAtFault self.old self.new report result }
        ensures failed { result ≡ Err Refusal.TargetFault → CountsFailure D.Device target.old target.new }
        ensures failed_there { result ≡ Err Refusal.TargetFault → FailsChunkWrite D.Device self.old report.chunk target.old target.new }
        ensures takes { TakesStep D.Device self.old self.new target.old target.new report result }

        ensures kept { KeepsCopy self.old self.new }
        ensures outside { ChangesChunk self.old report.chunk (D.content target.old) (D.content target.new) }
        ensures honest { D.honest target.new ≡ D.honest target.old }
        ensures counted { D.failures target.old ≤ D.failures target.new }
        ensures grown { OnlyWritesFailed (D.faults target.old) (D.faults target.new) }
        ensures unfailing { OnOk result (D.failures target.new ≡ D.failures target.old) }
        ensures none_failed { OnOk result (D.faults target.new ≡ D.faults target.old) }
        ensures within { LeavesBesideChunk D.Device self.old report.chunk target.old target.new }
    {
        self.take_ref(target, &report)
    }

    /// Takes a report whose memory is to be used again.
    #[tactic(auto, unfolding(crate::specs::Places::with_chunk), using(md_device::proofs::Leaving::leaves_none, md_device::proofs::Failing::fails_none, md_device::proofs::Failing::fails_call, crate::proofs::Crashes::leaves_beside))]
    pub fn take_ref<D: Device>(&mut self, target: &mut D, report: &Report) -> Result<(), Refusal>
        requires { HasRoom (D.content target.old) self.old.offset self.old.chunks }

        ensures refused { RefusesFirst self.old self.new target.old target.new report.now result }
        ensures counts { OnOk result (report_refusal self.old report.now ≡ None) }
        ensures ok { OnOk result (IsCounted report.now.chunk self.old self.new) }
        ensures bytes { OnOk result (HoldsReport D.Device self.old target.old target.new report.now) }
        ensures unwritten { report.now.bytes ≡ None → target.new ≡ target.old }
        ensures fault { SpoilsAtFault self.old self.new report.now result }
        ensures failed { result ≡ Err Refusal.TargetFault → CountsFailure D.Device target.old target.new }
        ensures failed_there { result ≡ Err Refusal.TargetFault → FailsChunkWrite D.Device self.old report.now.chunk target.old target.new }
        ensures takes { TakesStep D.Device self.old self.new target.old target.new report.now result }

        ensures kept { KeepsCopy self.old self.new }
        ensures outside { ChangesChunk self.old report.now.chunk (D.content target.old) (D.content target.new) }
        ensures honest { D.honest target.new ≡ D.honest target.old }
        ensures counted { D.failures target.old ≤ D.failures target.new }
        ensures grown { OnlyWritesFailed (D.faults target.old) (D.faults target.new) }
        ensures unfailing { OnOk result (D.failures target.new ≡ D.failures target.old) }
        ensures none_failed { OnOk result (D.faults target.new ≡ D.faults target.old) }
        ensures within { LeavesBesideChunk D.Device self.old report.now.chunk target.old target.new }
    {
        if let Some(why) = self.refusal(report) {
            return Err(why);
        }
        if let Some(bytes) = &report.bytes {
            // For the proof: a device has at most 2^54 sectors, so the sum fits.
            let _limit = target.sectors();
            let (start, _) = self.chunks.range(report.chunk);
            if target.write(self.offset + start, bytes.as_slice()).is_err() {
                self.spoiled = true;
                return Err(Refusal::TargetFault);
            }
        }
        self.reported.mark(report.chunk);
        Ok(())
    }

    /// Counts a report whose bytes the caller writes, as one of several that lie together. It takes no memory.
    pub fn count(&mut self, report: &Report)
        requires counts { report_refusal self.old report.now ≡ None }
        requires chunk { IsChunk self.old.chunks report.now.chunk }
        ensures { IsCounted report.now.chunk self.old self.new }
    {
        self.reported.mark(report.chunk);
    }

    /// The sector of the target at which a chunk's bytes belong.
    pub fn sector_of(&self, chunk: u32) -> u64
        requires chunk { IsChunk self.now.chunks chunk }
        requires room { self.now.offset + self.now.chunks.size < 2 ^ 64 }
        ensures { result ≡ self.now.offset + start_of self.now.chunks chunk }
    {
        let (start, _) = self.chunks.range(chunk);
        self.offset + start
    }

    // Why a report does not count.
    fn refusal(&self, report: &Report) -> Option<Refusal>
        ensures first { result ≡ report_refusal self.now report.now }
        ensures chunk { IfNone result (IsChunk self.now.chunks report.now.chunk) }
    {
        if self.spoiled {
            return Some(Refusal::Spoiled);
        }
        let slots = self.slots.as_slice();
        if !is_planned(slots, self.chunks, report.chunk, report.source) {
            return Some(Refusal::Stranger);
        }
        if self.reported.is_marked(report.chunk) {
            return Some(Refusal::Double);
        }
        if !has_length(self.chunks, report) {
            return Some(Refusal::Length);
        }
        None
    }

    /// How many reports counted. It takes no memory.
    pub fn reports(&self) -> u32
        ensures { result ≡ reports_of self.now }
    {
        self.reported.count()
    }
}

// Whether delivered bytes are as many as the chunk has.
fn has_length(chunks: Chunks, report: &Report) -> bool
    requires { IsChunk chunks report.now.chunk }
    ensures { result ≡ has_length chunks report.now }
{
    match &report.bytes {
        Some(bytes) => {
            let (_, sectors) = chunks.range(report.chunk);
            bytes.len() as u64 == 512 * sectors
        }
        None => true,
    }
}
