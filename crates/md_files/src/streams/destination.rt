// Where what is put out goes.
ghost use Rattle.md_files.specs.Streams.Destination.{destination_contents, destination_failed, is_destination_flushed};

use md_streams::{Sink, SinkFault};

/// Standard output, or a new file: in all that a sink does it is the one for which it stands.
#[derive(Drop)]
pub enum Destination<S, F> {
    Standard(S),
    File(F),
}

impl<S: Sink, F: Sink> Sink for Destination<S, F> {
    ghost contents = { destination_contents S.contents F.contents };

    ghost failed = { destination_failed S.failed F.failed };

    ghost is_flushed = { is_destination_flushed S.is_flushed F.is_flushed };

    fn put(&mut self, bytes: &[u8]) -> Result<(), SinkFault> {
        match self {
            Destination::Standard(sink) => sink.put(bytes),
            Destination::File(sink) => sink.put(bytes),
        }
    }

    fn flush(&mut self) -> Result<(), SinkFault> {
        match self {
            Destination::Standard(sink) => sink.flush(),
            Destination::File(sink) => sink.flush(),
        }
    }
}
