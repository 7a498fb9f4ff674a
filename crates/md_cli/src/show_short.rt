// An array in short.
ghost use Rattle.std.specs.Prelude.{IfOk};
ghost use Rattle.md_commands.specs.Objects.{summary_shown};
ghost use Rattle.md_refusals.specs.Output.{ShowsText};
ghost use Rattle.md_messages.specs.Telling.{texts};

use md_array::Mirror;
use md_commands::{show_summary, show_summary_json};
use md_device::Device;
use md_refusals::CommandFault;
use md_streams::Sink;

/// Puts out an array in one line, or as the JSON object of a command of this name, of whose members these are the images.
pub(crate) fn show_short<D: Device + Drop, S: Sink>(
    mirror: &Mirror<D>,
    kind: &str,
    json: bool,
    names: &[&str],
    out: &mut S,
) -> Result<(), CommandFault>
    ensures shows { ShowsText S.Sink (summary_shown kind.now json (texts names.now) mirror.now.array)
        out.old out.new result }
    ensures flushed { IfOk result (λ _. S.is_flushed out.new) }
{
    if json {
        return Ok(show_summary_json(mirror, kind, names, out)?);
    }
    Ok(show_summary(mirror, out)?)
}
