// Chunks that lie together on the target are written by one write.
ghost use Rattle.std.specs.Prelude.{◌≡◌, ◌*◌, ◌%◌, ◌<◌, ◌≤◌, ◌⊎◌, ◌∷◌, [], ℕ, List, Some, length, IfNone, IfOk, IfSome, OnErr, OnOk, true};
ghost use Rattle.md_collect.specs.Places.{HasRoom, IsChunk};
ghost use Rattle.md_collect.specs.Reading.{CountsFailure};
ghost use Rattle.md_collect.specs.Reports.{ReportView};
ghost use Rattle.md_pass.specs.Joining.{FitsOn, Follows, IsFollowedFirst, JoinedView, WritesWithin, as_if_written, joined_with, none_joined};

use md_collect::{Collector, Report, Reports};
use md_device::{Device, WriteFault};
use std::alloc::{AllocError, Global};
use std::marker::Model;

// The most bytes that are joined: they are still in the processor's cache when they are written.
const MOST_JOINED: usize = 256 * 1024;

// So many bytes or more are written alone: to copy them takes longer than a call.
const LONG: usize = 64 * 1024;

/// Bytes of chunks that lie together on the target, and wait to be written by one write. A disk takes about as
/// long to store a few of them as to store all. After `none` it takes no memory.
#[derive(Drop)]
pub(crate) struct Joined {
    start: u64,
    run: Vec<u8>,
}

impl Model for Joined {
    ghost use Rattle.std.specs.Prelude.{◌≡◌, ◌%◌, ◌≤◌, length, vec_capacity};
    ghost use Rattle.md_pass.specs.Joining.{JoinedView};

    ghost Value = { JoinedView };

    ghost view = { λ j. record { start = j.start; run = j.run.items } };

    ghost invariant = { λ j. (262144 ≤ vec_capacity j.run) × (length j.run.items % 512 ≡ 0) };
}

/// The bytes of a report, where they are so few that they wait for others.
pub(crate) fn few_bytes(report: &Report) -> Option<&[u8]>
    ensures few { IfSome result (λ bytes. (report.now.bytes ≡ Some bytes.now) × (length bytes.now < 65536)) }
    ensures many { IfNone result ((bytes : List ℕ) → report.now.bytes ≡ Some bytes → 65536 ≤ length bytes) }
{
    let Some(bytes) = report.bytes() else {
        return None;
    };
    if bytes.len() < LONG {
        Some(bytes)
    } else {
        None
    }
}

impl Joined {
    /// Nothing waits, and there is memory for what will.
    pub(crate) fn none(alloc: Global) -> Result<Joined, AllocError>
        ensures { IfOk result (λ j. j ≡ none_joined) }
    {
        Ok(Joined {
            start: 0,
            run: Vec::with_capacity(alloc, MOST_JOINED)?,
        })
    }

    /// Forgets what waits.
    pub(crate) fn clear(&mut self)
        ensures { self.new ≡ none_joined }
    {
        self.start = 0;
        self.run.clear();
    }

    /// Whether bytes from this sector on may be taken next: nothing waits, or they are few, lie behind what waits
    /// and fit into its memory.
    pub(crate) fn is_followed(&self, sector: u64, bytes: &[u8]) -> bool
        ensures { result ≡ true → Follows self.now sector bytes.now }
    {
        let waiting = self.run.len();
        waiting == 0
            || bytes.len() < LONG
                && waiting <= MOST_JOINED - bytes.len()
                && sector >= self.start
                && sector - self.start == (waiting / 512) as u64
    }

    /// Bytes from this sector on wait with the others.
    pub(crate) fn join(&mut self, sector: u64, bytes: &[u8])
        requires follows { Follows self.old sector bytes.now }
        requires short { length bytes.now < 65536 }
        requires whole { length bytes.now % 512 ≡ 0 }
        ensures { self.new ≡ joined_with self.old sector bytes.now }
    {
        if self.run.is_empty() {
            self.start = sector;
        }
        self.run.extend_from_slice(bytes).unwrap();
    }

    /// Writes what waits, by one write.
    pub(crate) fn write<D: Device>(&mut self, target: &mut D) -> Result<(), WriteFault>
        requires fits { FitsOn (D.content target.old) self.old }
        ensures written { OnOk result (D.honest target.old ≡ true → D.content target.new ≡ as_if_written (D.content target.old) self.old) }
        ensures none { OnOk result (self.new ≡ none_joined) }
        ensures failed { OnErr result (CountsFailure D.Device target.old target.new) }
        ensures none_failed { OnOk result (D.faults target.new ≡ D.faults target.old) }
        ensures within { WritesWithin D.Device (512 * self.old.start) (length self.old.run) target.old target.new }
    {
        if self.run.is_empty() {
            self.clear();
            return Ok(());
        }
        // For the proof: a device has at most 2^54 sectors.
        let _limit = target.sectors();
        target.write(self.start, self.run.as_slice())?;
        self.clear();
        Ok(())
    }

    /// Writes what waits, unless the bytes that are reported first may be taken next. Before a report of a failed read,
    /// and where no report is left, it goes on waiting.
    pub(crate) fn write_unless_followed<D: Device>(
        &mut self,
        collector: &Collector,
        target: &mut D,
        reports: &Reports,
    ) -> Result<(), WriteFault>
        requires room { HasRoom (D.content target.old) collector.now.offset collector.now.chunks }
        requires chunk { (r : ReportView) (rest : List ReportView) → reports.now.waiting ≡ r ∷ rest → IsChunk collector.now.chunks r.chunk }
        requires fits { FitsOn (D.content target.old) self.old }

        ensures written { OnOk result (D.honest target.old ≡ true
            → as_if_written (D.content target.new) self.new ≡ as_if_written (D.content target.old) self.old) }
        ensures joined { OnOk result (((self.new ≡ self.old) × (target.new ≡ target.old)) ⊎ (self.new.run ≡ [])) }
        ensures fits { OnOk result (FitsOn (D.content target.new) self.new) }
        ensures followed { OnOk result (IsFollowedFirst collector.now self.new reports.now.waiting) }
        ensures failed { OnErr result (CountsFailure D.Device target.old target.new) }
        ensures none_failed { OnOk result (D.faults target.new ≡ D.faults target.old) }
        ensures within { WritesWithin D.Device (512 * self.old.start) (length self.old.run) target.old target.new }
    {
        let Some(report) = reports.first() else {
            return Ok(());
        };
        let Some(bytes) = report.bytes() else {
            return Ok(());
        };
        // For the proof: a device has at most 2^54 sectors.
        let _limit = target.sectors();
        if self.is_followed(collector.sector_of(report.chunk()), bytes) {
            return Ok(());
        }
        self.write(target)
    }
}
