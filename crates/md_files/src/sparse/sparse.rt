// A sink that leaves out blocks of zeros.
ghost use Rattle.std.specs.Prelude.{◌≡◌, ◌++◌, length, replicate, true};
ghost use Rattle.md_streams.specs.Sink.{PutsOrFails};
ghost use Rattle.md_files.specs.Sparse.Sparse.{file_of};

use crate::sparse::hole_file::HoleFile;
use crate::zeros::{BLOCK, is_zero};
use md_streams::{Sink, SinkFault};

/// A sink into a file. Of what is put into it, each block of 4 KiB of zeros is left out, counted from where a `put` begins; the
/// bytes of the file are the same as if it were written. Runs of other blocks are passed on whole.
#[derive(Drop)]
pub struct Sparse<F> {
    file: F,
}

impl<F: HoleFile> Sparse<F> {
    /// A sink into this file. It takes no memory.
    pub fn new(file: F) -> Sparse<F>
        ensures { file_of result ≡ file }
    {
        Sparse { file }
    }

    /// The file, as it is. It is as long as what was written only after a `flush`.
    pub fn into_inner(self) -> F
        ensures { result ≡ file_of self }
    {
        self.file
    }
}

impl<F: HoleFile> Sink for Sparse<F> {
    ghost contents = { λ s. F.contents s.file };

    ghost failed = { λ s. F.failed s.file };

    ghost is_flushed = { λ s. F.is_whole s.file };

    fn put(&mut self, bytes: &[u8]) -> Result<(), SinkFault> {
        put_blocks(&mut self.file, bytes)
    }

    /// Makes the file as long as what was put into it.
    fn flush(&mut self) -> Result<(), SinkFault> {
        self.file.finish()
    }
}

// Writes the runs of blocks between those that are left out.
fn put_blocks<F: HoleFile>(file: &mut F, bytes: &[u8]) -> Result<(), SinkFault>
    ensures { PutsOrFails F.contents F.failed file.old file.new bytes.now result }
{
    let mut start = 0;
    let mut at = 0;
    while bytes.len() - at >= BLOCK {
        if is_zero(&bytes[at..at + BLOCK]) {
            leave_out(file, &bytes[start..at])?;
            start = at + BLOCK;
        }
        at += BLOCK;
    }
    file.write(&bytes[start..])?;
    Ok(())
}

// Writes what stands before a block of zeros, and leaves the block out.
#[tactic(auto, using(md_streams::proofs::Puts::puts_then))]
fn leave_out<F: HoleFile>(file: &mut F, before: &[u8]) -> Result<(), SinkFault>
    ensures { PutsOrFails F.contents F.failed file.old file.new (before.now ++ replicate 4096 0) result }
{
    file.write(before)?;
    file.skip(BLOCK)?;
    Ok(())
}
