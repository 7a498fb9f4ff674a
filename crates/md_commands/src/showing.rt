// The commands that show an array.
ghost use Rattle.md_report.specs.AsText.WholeArray.DetailReport.{detail_text};
ghost use Rattle.md_report.specs.AsText.WholeArray.SummaryReport.{summary_text};
ghost use Rattle.md_report.specs.AsText.WholeArray.VerboseReport.{verbose_text};
ghost use Rattle.md_report.specs.AsJson.WholeArray.MemberObjects.{texts_of};
ghost use Rattle.md_commands.specs.Objects.{detail_line, summary_line};
ghost use Rattle.md_refusals.specs.Output.{ShowsText};

use crate::objects::{put_detail_json, put_summary_json};
use crate::output::{put_detail, put_summary, put_verbose_detail};
use md_array::Mirror;
use md_device::Device;
use md_refusals::CommandFault;
use md_streams::Sink;

/// Puts out an array in one line. It stays as it is.
///
///     let mut out = Output::new(rt.stdout());
///     show_summary(&mirror, &mut out)?; // puts out `in sync 2 of 2, events 1, marked 0`
pub fn show_summary<D: Device + Drop, S: Sink>(
    mirror: &Mirror<D>,
    out: &mut S,
) -> Result<(), CommandFault>
    ensures { ShowsText S.Sink (summary_text mirror.now.array) out.old out.new result }
{
    put_summary(mirror, out)
}

/// Puts out an array with the state of each member. It stays as it is.
pub fn show_detail<D: Device + Drop, S: Sink>(
    mirror: &Mirror<D>,
    out: &mut S,
) -> Result<(), CommandFault>
    ensures { ShowsText S.Sink (detail_text mirror.now.array) out.old out.new result }
{
    put_detail(mirror, out)
}

/// Puts out an array with the state of each member and with its image, of which these are the names. It stays as it is.
pub fn show_verbose_detail<D: Device + Drop, S: Sink>(
    mirror: &Mirror<D>,
    images: &[&str],
    out: &mut S,
) -> Result<(), CommandFault>
    ensures { ShowsText S.Sink (verbose_text mirror.now.array (texts_of images.now)) out.old out.new result }
{
    put_verbose_detail(mirror, images, out)
}

/// Puts out an array in short as the JSON object of a command of this name. Of its members these are the images. It stays as it is.
pub fn show_summary_json<D: Device + Drop, S: Sink>(
    mirror: &Mirror<D>,
    kind: &str,
    images: &[&str],
    out: &mut S,
) -> Result<(), CommandFault>
    ensures { ShowsText S.Sink (summary_line kind.now (texts_of images.now) mirror.now.array)
        out.old out.new result }
{
    put_summary_json(mirror, kind, images, out)
}

/// Puts out an array in detail as a JSON object, of whose members these are the images. It stays as it is.
pub fn show_detail_json<D: Device + Drop, S: Sink>(
    mirror: &Mirror<D>,
    images: &[&str],
    out: &mut S,
) -> Result<(), CommandFault>
    ensures { ShowsText S.Sink (detail_line (texts_of images.now) mirror.now.array)
        out.old out.new result }
{
    put_detail_json(mirror, images, out)
}
