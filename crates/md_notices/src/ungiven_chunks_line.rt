// The line on chunks that no member in sync gives whole.
ghost use Rattle.std.specs.Prelude.{◌≡◌};
ghost use Rattle.md_streams.specs.Sink.{PutsOrFails};
ghost use Rattle.md_notices.specs.UngivenLine.{in_units, some_ungiven_text, ungiven_chunks_text, unit_text};

use crate::ungiven_chunks::UngivenChunks;
use md_streams::{Sink, SinkFault, number_after};

// The sectors of 1 MiB, and of 1 KiB.
const MIB_SECTORS: u32 = 2048;

const KIB_SECTORS: u32 = 2;

// How many units so many sectors are.
fn in_units(sectors: u32) -> u32
    ensures { result ≡ in_units sectors }
{
    if sectors % MIB_SECTORS == 0 {
        sectors / MIB_SECTORS
    } else if sectors % KIB_SECTORS == 0 {
        sectors / KIB_SECTORS
    } else {
        sectors
    }
}

// The units of so many sectors.
fn unit_of(sectors: u32) -> &'static [u8]
    ensures { result.now ≡ unit_text sectors }
{
    if sectors % MIB_SECTORS == 0 {
        b" MiB"
    } else if sectors % KIB_SECTORS == 0 {
        b" KiB"
    } else {
        b" sectors"
    }
}

/// Says how many chunks no member in sync gives whole, and which is the first, where there are some: before a rebuild, which would
/// list all of them as bad. It takes no memory, and fails only where the sink has failed.
pub fn chunks_ungiven_line<S: Sink>(out: &mut S, chunks: UngivenChunks) -> Result<(), SinkFault>
    ensures { PutsOrFails S.contents S.failed out.old out.new (ungiven_chunks_text chunks) result }
{
    match chunks.first {
        Some(first) => some_ungiven_line(out, chunks.sectors, chunks.count, first),
        None => out.put(b""),
    }
}

fn some_ungiven_line<S: Sink>(
    out: &mut S,
    sectors: u32,
    count: u32,
    first: u32,
) -> Result<(), SinkFault>
    ensures { PutsOrFails S.contents S.failed out.old out.new
        (some_ungiven_text sectors count first) result }
{
    number_after(out, b"mdcli: chunks of ", in_units(sectors))?;
    out.put(unit_of(sectors))?;
    number_after(out, b" that no member in sync gives whole: ", count)?;
    number_after(out, b", the first is ", first)?;
    out.put(
        b"; a rebuild lists all of each as bad, and `rebuild --salvage` only the sectors that no member gives\n",
    )?;
    Ok(())
}
