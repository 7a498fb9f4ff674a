// The reports of a queue that wait for the collector, and memory for further ones.
ghost use Rattle.std.specs.Prelude.{◌≡◌, ◌<◌, ◌≤◌, ◌∷◌, [], drop, length, IfOk, IfNone, IfSome, List};
ghost use Rattle.md_collect.specs.Places.{HasRoom, IsChunk, bytes_of_chunk};
ghost use Rattle.md_collect.specs.Reports.{ReportView};
ghost use Rattle.md_collect.specs.Workers.Waiting.{ReadsOneMore};

use crate::chunk_read::read_chunk_within;
use crate::report::Report;
use md_bitmap::Chunks;
use md_device::Device;
use std::alloc::{AllocError, Global};
use std::collections::VecDeque;
use std::marker::Model;

/// The reports of a queue that the collector has not yet taken, in the order in which their chunks were
/// read, and memory for the bytes of further ones. After `none` it takes no more of it.
#[derive(Drop)]
pub struct Reports {
    waiting: VecDeque<Report>,
    spares: Vec<Vec<u8>>,
    longest: usize,
}

impl Model for Reports {
    ghost use Rattle.std.specs.Prelude.{◌+◌, length};
    ghost use Rattle.md_collect.specs.Workers.Waiting.{WaitingView, HaveMemory};

    ghost Value = { WaitingView };

    ghost view = { λ r. record {
      waiting = r.waiting.items;
      room = length r.waiting.items + length r.spares.items;
      longest = r.longest;
    } };

    ghost invariant = { λ r. HaveMemory r.waiting r.spares r.longest };
}

impl Reports {
    /// None, and memory for `room` of them, each of `longest` bytes.
    pub fn none(alloc: Global, room: usize, longest: usize) -> Result<Reports, AllocError>
        ensures { IfOk result (λ r. r ≡ record { waiting = []; room = room; longest = longest }) }
    {
        let waiting = VecDeque::with_capacity(alloc, room)?;
        let mut spares = Vec::with_capacity(alloc, room)?;
        for _spare in 0..room {
            spares.push_reserved(Vec::with_capacity(alloc, longest)?);
        }
        Ok(Reports {
            waiting,
            spares,
            longest,
        })
    }

    /// How many wait.
    pub fn len(&self) -> usize
        ensures { result ≡ length self.now.waiting }
    {
        self.waiting.len()
    }

    /// A chunk is read, and its report waits, the last. Answers whether its bytes were delivered.
    pub(crate) fn read<D: Device>(
        &mut self,
        device: &mut D,
        source: u8,
        offset: u64,
        chunks: Chunks,
        chunk: u32,
    ) -> bool
        requires chunk { IsChunk chunks chunk }
        requires room { HasRoom (D.content device.old) offset chunks }
        requires spare { length self.old.waiting < self.old.room }
        requires long { bytes_of_chunk chunks chunk ≤ self.old.longest }
        ensures { ReadsOneMore D.Device device.old device.new source offset chunks chunk self.old self.new result }
    {
        let Some(memory) = self.spares.pop() else {
            unreachable!();
        };
        let report = read_chunk_within(memory, device, source, offset, chunks, chunk);
        let delivered = !report.is_failed();
        self.waiting.push_back_reserved(report);
        delivered
    }

    /// The report that waits first, if one waits.
    pub fn first(&self) -> Option<&Report>
        ensures some { IfSome result (λ report. (rest : List ReportView) × (self.now.waiting ≡ report.now ∷ rest)) }
        ensures none { IfNone result (self.now.waiting ≡ []) }
    {
        self.waiting.front()
    }

    /// The first was taken, if one waits: its memory is for a further one, also where the read failed.
    pub fn retire(&mut self)
        ensures { self.new ≡ record self.old { waiting = drop 1 self.old.waiting } }
    {
        if let Some(report) = self.waiting.pop_front() {
            let memory = report.into_memory();
            let memory = memory.unwrap_or(Vec::new(*self.spares.allocator()));
            self.spares.push_reserved(memory);
        }
    }
}
