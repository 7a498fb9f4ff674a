// A sink that hands on nothing in part.
ghost use Rattle.std.specs.Prelude.{◌≡◌};
ghost use Rattle.md_streams.specs.Sink.{PutsOrFails};

use md_streams::{Sink, SinkFault};

/// A sink over another one, which it flushes after each `put` of bytes: so that one knows where these end.
#[derive(Drop)]
pub struct WholePuts<S> {
    sink: S,
}

impl<S: Sink> WholePuts<S> {
    /// A sink over this one.
    pub fn new(sink: S) -> WholePuts<S>
        ensures { result.sink ≡ sink }
    {
        WholePuts { sink }
    }

    /// The sink below.
    pub fn into_inner(self) -> S
        ensures { result ≡ self.sink }
    {
        self.sink
    }
}

impl<S: Sink> Sink for WholePuts<S> {
    ghost contents = { λ s. S.contents s.sink };

    ghost failed = { λ s. S.failed s.sink };

    ghost is_flushed = { λ s. S.is_flushed s.sink };

    fn put(&mut self, bytes: &[u8]) -> Result<(), SinkFault> {
        put_whole(&mut self.sink, bytes)
    }

    fn flush(&mut self) -> Result<(), SinkFault> {
        self.sink.flush()
    }
}

// Puts the bytes, and has the sink hold nothing back.
fn put_whole<S: Sink>(sink: &mut S, bytes: &[u8]) -> Result<(), SinkFault>
    ensures { PutsOrFails S.contents S.failed sink.old sink.new bytes.now result }
{
    sink.put(bytes)?;
    if bytes.is_empty() {
        return Ok(());
    }
    sink.flush()?;
    Ok(())
}
