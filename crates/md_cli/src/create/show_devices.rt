// A new array is shown.
ghost use Rattle.std.specs.Prelude.{◌≡◌, IfOk, codes, length};
ghost use Rattle.md_commands.specs.Objects.{summary_shown};
ghost use Rattle.md_messages.specs.Telling.{texts};
ghost use Rattle.md_report.specs.AsText.WholeArray.SummaryReport.{summary_text};
ghost use Rattle.md_cli.specs.Arrays.{ShowsDevices, disks};

use crate::show_short::show_short;
use md_array::Mirror;
use md_device::Device;
use md_refusals::CommandFault;
use md_streams::Sink;
use std::alloc::Global;

/// Opens devices as a mirror and shows it in one line. They come back in their order.
pub(crate) fn show_devices<D: Device + Drop, S: Sink>(
    alloc: Global,
    devices: Vec<D>,
    out: &mut S,
) -> (Vec<D>, Result<(), CommandFault>)
    ensures as_many { length result.0.items ≡ length devices.items }
    ensures gives { ShowsDevices S.Sink summary_text (disks D.Device devices.items)
        (disks D.Device result.0.items) out.old out.new result.1 }
    ensures flushed { IfOk result.1 (λ _. S.is_flushed out.new) }
{
    show_created(alloc, devices, false, &[], out)
}

/// Opens devices as a mirror and shows it in one line, or as the JSON object of `create`, of whose members these are the images.
/// They come back in their order.
pub(crate) fn show_created<D: Device + Drop, S: Sink>(
    alloc: Global,
    devices: Vec<D>,
    json: bool,
    images: &[&str],
    out: &mut S,
) -> (Vec<D>, Result<(), CommandFault>)
    ensures as_many { length result.0.items ≡ length devices.items }
    ensures gives { ShowsDevices S.Sink (summary_shown (codes "create") json (texts images.now))
        (disks D.Device devices.items) (disks D.Device result.0.items) out.old out.new result.1 }
    ensures flushed { IfOk result.1 (λ _. S.is_flushed out.new) }
{
    match Mirror::open(alloc, devices) {
        Ok(mirror) => {
            let shown = show_short(&mirror, "create", json, images, out);
            (mirror.into_devices(), shown)
        }
        Err((devices, fault)) => (devices, Err(CommandFault::Open(fault))),
    }
}
