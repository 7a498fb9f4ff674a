// Where the bytes to be written come from.
ghost use Rattle.std.specs.Prelude.{◌≡◌, Bool, List, None, Option, ℕ};
ghost use Rattle.md_streams.specs.Source.{GivesOrFails};

use std::io::{Error as IoError, ErrorKind, Read};
use thiserror::Error;

/// The input can't be read: a source's only fault.
#[derive(Clone, Copy, Debug, PartialEq, Eq, Error)]
#[error("the input can't be read")]
pub struct SourceFault;

/// A source of bytes that says whether it has failed. A reader of std says nothing of its errors, so a body
/// that gives up for no reason would meet any contract over one.
pub trait Source {
    /// The bytes still to come, where they are known.
    ghost remaining: { Self → Option (List ℕ) };

    /// Whether a call has failed.
    ghost failed: { Self → Bool };

    /// How many bytes are still to come, where that is told before any is read.
    ghost told: { Self → Option ℕ };

    /// Fills the front of `buf` with the next bytes, and answers how many they are, or fails and takes none. No
    /// byte comes only at the end of the source, or where `buf` is empty.
    fn take(&mut self, buf: &mut [u8]) -> Result<usize, SourceFault>
        ensures gives { GivesOrFails remaining failed self.old self.new buf.new result }
        ensures untold { told self.new ≡ None };

    /// How many bytes are still to come, where that is told before any is read, as of a file. What must be refused for its
    /// length need not be read then. After a `take` nothing is told.
    fn bytes_left(&self) -> Option<u64>
        ensures { result ≡ told self.now };
}

/// A reader of std as a source. It has failed where the reader answered an error once, but for one that says
/// that the read was interrupted: that one is tried again.
#[derive(Drop)]
pub struct Input<R> {
    reader: R,
    failed: bool,
    told: Option<u64>,
}

impl<R> Input<R> {
    ghost use Rattle.std.specs.Prelude.{◌≡◌, None, false};
    ghost use Rattle.md_streams.specs.Input.{input_has_failed, reader_of, length_told_of};

    /// A source that has not failed, of a length that nobody tells. It takes no memory.
    pub fn new(reader: R) -> Input<R>
        ensures reader { reader_of result ≡ reader }
        ensures well { input_has_failed result ≡ false }
        ensures untold { length_told_of result ≡ None }
    {
        Input::of_length(reader, None)
    }

    /// A source that has not failed, of which the caller tells how many bytes are still to come, if that is known.
    pub fn of_length(reader: R, told: Option<u64>) -> Input<R>
        ensures reader { reader_of result ≡ reader }
        ensures well { input_has_failed result ≡ false }
        ensures told { length_told_of result ≡ told }
    {
        Input {
            reader,
            failed: false,
            told,
        }
    }

    /// The reader with what it has left.
    pub fn into_inner(self) -> R
        ensures { result ≡ reader_of self }
    {
        self.reader
    }
}

impl<R: Read> Source for Input<R> {
    ghost remaining = { λ i. R.remaining i.reader };

    ghost failed = { λ i. i.failed };

    ghost told = { λ i. i.told };

    fn take(&mut self, buf: &mut [u8]) -> Result<usize, SourceFault> {
        // It was told of all that was to come.
        self.told = None;
        for _ in 0..u64::MAX {
            match self.reader.read(buf) {
                Ok(taken) => return Ok(taken),
                Err(error) if is_interrupted(&error) => {}
                Err(_) => break,
            }
        }
        self.failed = true;
        Err(SourceFault)
    }

    fn bytes_left(&self) -> Option<u64> {
        self.told
    }
}

fn is_interrupted(error: &IoError) -> bool {
    error.kind() == ErrorKind::Interrupted
}
