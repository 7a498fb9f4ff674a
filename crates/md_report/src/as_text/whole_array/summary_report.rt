// An array in one line.
ghost use Rattle.md_streams.specs.Sink.{PutsOrFails};
ghost use Rattle.md_report.specs.AsText.WholeArray.SummaryReport.{summary_text};

use md_array::Mirror;
use md_device::Device;
use md_notices::in_sync_count;
use md_streams::{Sink, SinkFault, number_after};

/// Writes one line: how many members are in sync, how many raid devices the array has, its event
/// count and how many chunks are marked. It takes no memory, and fails only where the sink has
/// failed.
pub fn summary<S: Sink, D: Device + Drop>(out: &mut S, mirror: &Mirror<D>) -> Result<(), SinkFault>
    ensures { PutsOrFails S.contents S.failed out.old out.new (summary_text mirror.now.array) result }
{
    number_after(out, b"in sync ", in_sync_count(mirror))?;
    number_after(out, b" of ", mirror.shared().raid_disks)?;
    number_after(out, b", events ", mirror.events())?;
    number_after(out, b", marked ", mirror.marks().count())?;
    out.put(b"\n")?;
    Ok(())
}
