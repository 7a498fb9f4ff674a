// Standard error in memory.
ghost use Rattle.std.specs.Prelude.{Some, ⊤};

use md_streams::{Sink, SinkFault};
use std::alloc::Global;
use std::io::{Result as IoResult, Write};

/// What a run writes to standard error. As a sink it has failed where there was no memory for it once.
#[derive(Drop)]
pub(crate) struct Errors {
    taken: Vec<u8>,
    failed: bool,
}

impl Errors {
    pub(crate) fn new(alloc: Global) -> Errors {
        Errors {
            taken: Vec::new(alloc),
            failed: false,
        }
    }

    pub(crate) fn text(&self) -> &[u8] {
        self.taken.as_slice()
    }
}

impl Write for Errors {
    ghost contents = { λ e. Some e.taken.items };

    fn write(&mut self, buf: &[u8]) -> IoResult<usize> {
        self.taken.write(buf)
    }

    fn flush(&mut self) -> IoResult<()> {
        self.taken.flush()
    }
}

impl Sink for Errors {
    ghost contents = { λ e. Some e.taken.items };

    ghost failed = { λ e. e.failed };

    ghost is_flushed = { λ _. ⊤ };

    fn put(&mut self, bytes: &[u8]) -> Result<(), SinkFault> {
        if self.taken.write_all(bytes).is_err() {
            self.failed = true;
            return Err(SinkFault);
        }
        Ok(())
    }

    fn flush(&mut self) -> Result<(), SinkFault> {
        if self.taken.flush().is_err() {
            self.failed = true;
            return Err(SinkFault);
        }
        Ok(())
    }
}
