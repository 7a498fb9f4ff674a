// Where a report goes.
ghost use Rattle.std.specs.Prelude.{◌≡◌, Option, List, ℕ, Bool, OnErr, OnOk, false, is_ok, true, ⊤};
ghost use Rattle.md_streams.specs.Sink.{FlushesOrFails, PutsOrFails};

use std::io::{self, Write};
use thiserror::Error;

/// The output can't be written: a writer's only fault.
#[derive(Clone, Copy, Debug, PartialEq, Eq, Error)]
#[error("the output can't be written")]
pub struct SinkFault;

/// A destination of bytes that says whether it has failed. A writer of std says nothing of its
/// errors, so a body that gives up for no reason would meet any contract over one.
pub trait Sink {
    /// The bytes that it took, where they are known.
    ghost contents: { Self → Option (List ℕ) };

    /// Whether a call has failed.
    ghost failed: { Self → Bool };

    /// It holds nothing back of what it took.
    ghost is_flushed: { Self → Type 0 };

    /// Takes all the bytes, or fails. Which of them a failed call has taken is left open.
    fn put(&mut self, bytes: &[u8]) -> Result<(), SinkFault>
        ensures { PutsOrFails contents failed self.old self.new bytes.now result };

    /// Passes on what it holds back of the bytes that it took, or fails.
    fn flush(&mut self) -> Result<(), SinkFault>
        ensures { FlushesOrFails contents failed is_flushed self.old self.new result };
}

/// A writer of std as a sink. It has failed where the writer answered an error once; that it does
/// so only then is tested, since no clause of std speaks of a writer's errors.
#[derive(Drop)]
pub struct Output<W> {
    writer: W,
    failed: bool,
}

impl<W> Output<W> {
    ghost use Rattle.md_streams.specs.Output.{writer_of, output_has_failed};

    /// A sink that has not failed. It takes no memory.
    pub fn new(writer: W) -> Output<W>
        ensures writer { writer_of result ≡ writer }
        ensures well { output_has_failed result ≡ false }
    {
        Output {
            writer,
            failed: false,
        }
    }

    /// The writer with what it took.
    pub fn into_inner(self) -> W
        ensures { result ≡ writer_of self }
    {
        self.writer
    }

    // Keeps in mind that the writer failed.
    fn note_outcome(&mut self, outcome: io::Result<()>) -> Result<(), SinkFault>
        ensures variant { is_ok result ≡ is_ok outcome }
        ensures writer { writer_of self.new ≡ writer_of self.old }
        ensures ok { OnOk result (output_has_failed self.new ≡ output_has_failed self.old) }
        ensures err { OnErr result (output_has_failed self.new ≡ true) }
    {
        if outcome.is_err() {
            self.failed = true;
            return Err(SinkFault);
        }
        Ok(())
    }
}

impl<W: Write> Sink for Output<W> {
    ghost contents = { λ o. W.contents o.writer };

    ghost failed = { λ o. o.failed };

    ghost is_flushed = { λ _. ⊤ };

    fn put(&mut self, bytes: &[u8]) -> Result<(), SinkFault> {
        let written = self.writer.write_all(bytes);
        self.note_outcome(written)
    }

    /// Flushes the writer. No clause of std says what a writer holds back.
    fn flush(&mut self) -> Result<(), SinkFault> {
        let flushed = self.writer.flush();
        self.note_outcome(flushed)
    }
}
