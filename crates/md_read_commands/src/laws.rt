//! What holds of reads. The functions do nothing: their contracts are the theorems.
ghost use Rattle.md_read_commands.specs.AsResynced.{ReadsAsResynced, ResyncsLeaveSources};
ghost use Rattle.md_read_commands.specs.Filling.{FillsContent, MissesUnserved};

/// What `read_unresynced` gives is what a resync and then a `read` give, where devices do what they answer: in each
/// sector of a marked chunk, whatever the members hold there, and in each other in which the members in sync agree. For a
/// resync leaves in each marked sector what its source held, on each member in sync that does not list it, and in no other sector
/// anything else than was there.
pub fn read_as_resynced()
    ensures sources { ResyncsLeaveSources }
    ensures reads { ReadsAsResynced }
{}

/// What is read of a resynced array with zeros in the place of missing sectors is its content in every other sector.
pub fn filled_content()
    ensures { FillsContent }
{}

/// A sector is missing in what is read so, in whichever way, only where each member in sync lists it as bad, or a read of that very
/// sector failed on it as it was asked for.
pub fn missing_sectors()
    ensures { MissesUnserved }
{}
