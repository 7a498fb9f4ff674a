// A file that can have holes.
ghost use Rattle.std.specs.Prelude.{Option, List, ℕ, Bool, replicate};
ghost use Rattle.md_streams.specs.Sink.{FlushesOrFails, PutsOrFails};

use md_streams::SinkFault;

/// A new file that is written from its start to its end, and in which parts can be left out: these are holes, which are read as
/// zeros and take no room on a disk. Nothing is promised of which bytes of it take room.
pub trait HoleFile {
    /// Its bytes up to where it is written, those of a hole being zeros, where they are known.
    ghost contents: { Self → Option (List ℕ) };

    /// Whether a call has failed.
    ghost failed: { Self → Bool };

    /// It is as long as what was written, also where a hole is last.
    ghost is_whole: { Self → Type 0 };

    /// Writes these bytes after those that are there, or fails.
    fn write(&mut self, bytes: &[u8]) -> Result<(), SinkFault>
        ensures { PutsOrFails contents failed self.old self.new bytes.now result };

    /// Leaves so many bytes out, which are a hole, or fails.
    fn skip(&mut self, bytes: usize) -> Result<(), SinkFault>
        ensures { PutsOrFails contents failed self.old self.new (replicate bytes 0) result };

    /// Makes it as long as what was written, or fails.
    fn finish(&mut self) -> Result<(), SinkFault>
        ensures { FlushesOrFails contents failed is_whole self.old self.new result };
}
