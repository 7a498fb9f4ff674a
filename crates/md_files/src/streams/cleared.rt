// Standard streams beside a line.
ghost use Rattle.std.specs.Prelude.{◌≡◌, true, false, ⊤, List, MatchResult, OnOk, length, take};
ghost use Rattle.std.specs.Io.KnownBytes.{Appends, WriteAppends};
ghost use Rattle.std.specs.Io.{WritesAtMost};
ghost use Rattle.std.specs.Str.{IsUtf8};
ghost use Rattle.md_files.specs.Streams.Cleared.{cleared_contents, cleared_writer_of, has_failed_cleared, is_coded_text};
ghost use Rattle.md_files.specs.Streams.CodedText.{coded};

use crate::streams::coded_text::put_coded;
use md_streams::{Sink, SinkFault};
use std::io::{self, ErrorKind, Write};
use std::str;

/// A line that is shown somewhere, as that of progress.
pub trait Line {
    /// Takes the line away, so that something else can be shown.
    fn clear(&self);
}

/// A writer before whose output a line is taken away, where both are shown in one place. As a sink it has failed where the
/// writer answered an error to it once.
#[derive(Drop)]
pub struct Cleared<'a, W, L> {
    writer: W,
    line: &'a L,
    is_beside: bool,
    // What hides in the text of std's writers stands as its code.
    is_coded: bool,
    failed: bool,
}

impl<'a, W, L: Line> Cleared<'a, W, L> {
    /// A sink that has not failed. It takes no memory.
    pub fn new(writer: W, line: &'a L, is_beside: bool) -> Cleared<'a, W, L>
        ensures writer { cleared_writer_of result ≡ writer }
        ensures plain { is_coded_text result ≡ false }
        ensures well { has_failed_cleared result ≡ false }
    {
        Cleared {
            writer,
            line,
            is_beside,
            is_coded: false,
            failed: false,
        }
    }

    /// From now on, what hides in a text is written as its code. A sink's bytes go on as they are.
    pub fn code_text(&mut self)
        ensures writer { cleared_writer_of self.new ≡ cleared_writer_of self.old }
        ensures coded { is_coded_text self.new ≡ true }
        ensures failed { has_failed_cleared self.new ≡ has_failed_cleared self.old }
    {
        self.is_coded = true;
    }

    fn clear(&self) {
        if self.is_beside {
            self.line.clear();
        }
    }
}

impl<'a, W: Write, L: Line> Write for Cleared<'a, W, L> {
    ghost contents = { cleared_contents W.contents };

    fn write(&mut self, buf: &[u8]) -> io::Result<usize>
        ensures bound { WritesAtMost result buf.now }
        ensures bytes { WriteAppends (cleared_contents W.contents self.old) (cleared_contents W.contents self.new) result buf.now }

        // A text of which the codes are written is written whole.
        ensures coded { is_coded_text self.old ≡ true → IsUtf8 buf.now
            → OnOk result (Appends (W.contents (cleared_writer_of self.old)) (W.contents (cleared_writer_of self.new)) (coded buf.now)) }
        ensures kept { is_coded_text self.new ≡ is_coded_text self.old }
    {
        self.clear();
        if !self.is_coded {
            return self.writer.write(buf);
        }
        let Ok(text) = str::from_utf8(buf) else {
            return self.writer.write(buf);
        };
        let outcome = put_coded(self, text);
        // It is so, but of a sink no contract says it.
        self.is_coded = true;
        match outcome {
            Ok(()) => Ok(buf.len()),
            Err(_) => Err(io::Error::from(ErrorKind::Other)),
        }
    }

    fn flush(&mut self) -> io::Result<()> {
        self.writer.flush()
    }
}

impl<'a, W: Write, L: Line> Sink for Cleared<'a, W, L> {
    ghost contents = { λ c. W.contents c.writer };

    ghost failed = { λ c. c.failed };

    ghost is_flushed = { λ _. ⊤ };

    /// Where there is nothing to put, the line stays.
    fn put(&mut self, bytes: &[u8]) -> Result<(), SinkFault> {
        if !bytes.is_empty() {
            self.clear();
        }
        if self.writer.write_all(bytes).is_err() {
            self.failed = true;
            return Err(SinkFault);
        }
        Ok(())
    }

    fn flush(&mut self) -> Result<(), SinkFault> {
        if self.writer.flush().is_err() {
            self.failed = true;
            return Err(SinkFault);
        }
        Ok(())
    }
}
