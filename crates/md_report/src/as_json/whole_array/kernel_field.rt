// What is to be run before a kernel is given the array.
ghost use Rattle.std.specs.Prelude.{codes};
ghost use Rattle.serde_json.specs.Written.{compact_text};
ghost use Rattle.md_streams.specs.Sink.{PutsOrFails};
ghost use Rattle.md_report.specs.AsJson.Objects.{later_text, next_text};
ghost use Rattle.md_report.specs.AsJson.WholeArray.KernelField.{command_value, kernel_fields};

use crate::as_json::values::{next_null, next_text};
use md_array::Mirror;
use md_device::Device;
use md_notices::{Unready, unready_for_kernel};
use md_streams::{Sink, SinkFault};

/// The command that is to be run before a kernel is given the array, and null where there is no reason for one.
pub(crate) fn kernel_field<S: Sink, D: Device + Drop>(
    out: &mut S,
    mirror: &Mirror<D>,
) -> Result<(), SinkFault>
    ensures { PutsOrFails S.contents S.failed out.old out.new
        (later_text (kernel_fields mirror.now.array)) result }
{
    command_field(out, unready_for_kernel(mirror))?;
    Ok(())
}

fn command_field<S: Sink>(out: &mut S, why: Option<Unready>) -> Result<(), SinkFault>
    ensures { PutsOrFails S.contents S.failed out.old out.new
        (next_text (codes "run_before_kernel") (compact_text (command_value why))) result }
{
    match why {
        Some(why) => next_text(out, "run_before_kernel", why.command().as_bytes()),
        None => next_null(out, "run_before_kernel"),
    }
}
