// A sink that holds small writes back.
ghost use Rattle.std.specs.Prelude.{◌≡◌, ◌+◌, ◌≤◌, [], length, is_err, IsErr, IsOk, OnErr, true, false};
ghost use Rattle.md_streams.specs.Sink.{FlushesOrFails, PutsOrFails};

use crate::sink::{Sink, SinkFault};
use std::alloc::Global;

// How many bytes are held back at most.
const ROOM: usize = 64 * 1024;

/// A sink that passes bytes on to another one in few writes: it holds them back until there is no
/// room for more, or until `flush`. What it holds when it is dropped is lost.
///
/// Once a call has failed, each later one fails too and leaves the sink below alone: what that one
/// takes has no gap.
#[derive(Drop)]
pub struct Buffered<S> {
    sink: S,
    held: Vec<u8>,
    broken: bool,
}

impl<S: Sink> Buffered<S> {
    ghost use Rattle.md_streams.specs.Buffered.{Spills, held_back, is_broken, room, sink_of};

    /// A buffer of 64 KiB over a sink. Without memory for it nothing is held back: each `put` is
    /// passed on at once.
    pub fn new(alloc: Global, sink: S) -> Buffered<S>
        ensures sink { sink_of result ≡ sink }
        ensures held { held_back result ≡ [] }
        ensures well { is_broken result ≡ false }
    {
        let held = match Vec::with_capacity(alloc, ROOM) {
            Ok(held) => held,
            Err(_) => Vec::new(alloc),
        };
        Buffered {
            sink,
            held,
            broken: false,
        }
    }

    /// The sink below. What is held back is lost.
    pub fn into_inner(self) -> S
        ensures { result ≡ sink_of self }
    {
        self.sink
    }

    // Passes on what is held back.
    fn spill(&mut self) -> Result<(), SinkFault>
        requires { is_broken self.old ≡ false }
        ensures spills { Spills S.contents S.failed self.old self.new result }
        ensures room { room self.new ≡ room self.old }
    {
        let passed_on = self.sink.put(self.held.as_slice());
        self.note_outcome(passed_on)?;
        self.held.clear();
        Ok(())
    }

    // Keeps in mind that the sink below failed.
    fn note_outcome(&mut self, outcome: Result<(), SinkFault>) -> Result<(), SinkFault>
        ensures same { result ≡ outcome }
        ensures broken { is_broken self.new ≡ is_err outcome }
        ensures sink { sink_of self.new ≡ sink_of self.old }
        ensures held { held_back self.new ≡ held_back self.old }
        ensures room { room self.new ≡ room self.old }
    {
        self.broken = outcome.is_err();
        outcome
    }
}

impl<S: Sink> Sink for Buffered<S> {
    ghost use Rattle.md_streams.specs.Buffered.{buffered_contents, buffered_failed, held_back, is_broken, is_passed_on, room, sink_of};

    ghost contents = { buffered_contents S.contents };

    ghost failed = { buffered_failed S.failed };

    ghost is_flushed = { is_passed_on S.is_flushed };

    /// Where there is room for the bytes, the sink below is left alone. The first `Err` comes only
    /// from a sink below that has failed.
    fn put(&mut self, bytes: &[u8]) -> Result<(), SinkFault>
        ensures puts { PutsOrFails (buffered_contents S.contents) (buffered_failed S.failed) self.old self.new bytes.now result }
        ensures holds { is_broken self.old ≡ false → length (held_back self.old) + length bytes.now ≤ room self.old → IsOk result × (sink_of self.new ≡ sink_of self.old) }
        ensures broken { is_broken self.new ≡ is_err result }
        ensures told { OnErr result (is_broken self.old ≡ false → S.failed (sink_of self.new) ≡ true) }
        ensures stays_broken { is_broken self.old ≡ true → IsErr result × (self.new ≡ self.old) }
    {
        if self.broken {
            return Err(SinkFault);
        }
        if bytes.len() > self.held.capacity() - self.held.len() {
            self.spill()?;
        }
        if bytes.len() > self.held.capacity() {
            let passed_on = self.sink.put(bytes);
            return self.note_outcome(passed_on);
        }
        self.held.extend_from_slice(bytes).unwrap();
        Ok(())
    }

    /// Flushes the sink below too. The first `Err` comes only from a sink below that has failed.
    fn flush(&mut self) -> Result<(), SinkFault>
        ensures flushes { FlushesOrFails (buffered_contents S.contents) (buffered_failed S.failed) (is_passed_on S.is_flushed) self.old self.new result }
        ensures broken { is_broken self.new ≡ is_err result }
        ensures told { OnErr result (is_broken self.old ≡ false → S.failed (sink_of self.new) ≡ true) }
        ensures stays_broken { is_broken self.old ≡ true → IsErr result × (self.new ≡ self.old) }
    {
        if self.broken {
            return Err(SinkFault);
        }
        self.spill()?;
        let flushed = self.sink.flush();
        self.note_outcome(flushed)
    }
}
