// What is said of a rebuild that goes on where an earlier one ended.
ghost use Rattle.md_streams.specs.Sink.{PutsOrFails};
ghost use Rattle.md_streams.specs.GoingOn.{from_text, going_on_text};

use crate::numbers::number_after;
use crate::sink::{Sink, SinkFault};

/// Says that the rebuild of a member goes on, from which chunk, and how many of how many chunks are missing. It takes no memory, and
/// fails only where the sink has failed.
pub fn put_going_on<S: Sink>(
    out: &mut S,
    member: usize,
    missing: u32,
    first: Option<u32>,
    chunks: u32,
) -> Result<(), SinkFault>
    ensures { PutsOrFails S.contents S.failed out.old out.new
        (going_on_text member missing first chunks) result }
{
    number_after(out, b"mdcli: the rebuild of member ", member)?;
    out.put(b" goes on")?;
    put_from(out, first)?;
    number_after(out, b", chunks missing: ", missing)?;
    number_after(out, b" of ", chunks)?;
    out.put(b"\n")?;
    Ok(())
}

fn put_from<S: Sink>(out: &mut S, first: Option<u32>) -> Result<(), SinkFault>
    ensures { PutsOrFails S.contents S.failed out.old out.new (from_text first) result }
{
    match first {
        Some(chunk) => number_after(out, b" from chunk ", chunk),
        None => out.put(b""),
    }
}
