// The report of an array, with the images of its members.
ghost use Rattle.std.specs.Prelude.{◌≡◌, codes};
ghost use Rattle.md_streams.specs.Sink.{PutsOrFails};
ghost use Rattle.md_streams.specs.ShownNames.Shown.{shown};
ghost use Rattle.md_report.specs.AsText.WholeArray.VerboseReport.{image_name, image_text, named_lines, named_text, verbose_text};
ghost use Rattle.md_report.specs.AsJson.WholeArray.MemberObjects.{texts_of};

use crate::as_json::whole_array::member_objects::image_at;
use crate::as_text::whole_array::detail_report::{condition, shared_lines};
use crate::as_text::whole_array::member_lines::{flag, number, role, standing};
use crate::recovery::recovery_lines;
use md_array::Mirror;
use md_assembly::MemberState;
use md_device::Device;
use md_kept_members::is_write_mostly;
use md_streams::{Sink, SinkFault, put_name};

/// Writes the report of an array, as `detail` does, with a line for each recovering member that says how far it is, a line over
/// those of the members, of which `images` are the names, and the name of its image at the end of each of these. It takes no memory, and fails only where the sink has failed.
pub fn verbose_detail<S: Sink, D: Device + Drop>(
    out: &mut S,
    mirror: &Mirror<D>,
    images: &[&str],
) -> Result<(), SinkFault>
    ensures { PutsOrFails S.contents S.failed out.old out.new
        (verbose_text mirror.now.array (texts_of images.now)) result }
{
    shared_lines(out, mirror.shared())?;
    condition(out, mirror)?;
    recovery_lines(out, mirror)?;
    out.put(b" Index Number   Role State  Image\n")?;
    named_lines(out, mirror, images)?;
    Ok(())
}

fn named_lines<S: Sink, D: Device + Drop>(
    out: &mut S,
    mirror: &Mirror<D>,
    images: &[&str],
) -> Result<(), SinkFault>
    ensures { PutsOrFails S.contents S.failed out.old out.new
        (named_lines mirror.now.array (texts_of images.now) 0 mirror.now.array.members) result }
{
    for k in 0..mirror.members() {
        let own = mirror.own(k);
        let mostly = is_write_mostly(own);
        named_line(
            out,
            images,
            k,
            own.dev_number,
            mirror.state(k),
            mirror.re_added(k),
            mostly,
        )?;
    }
    Ok(())
}

fn named_line<S: Sink>(
    out: &mut S,
    images: &[&str],
    index: usize,
    dev_number: u32,
    state: MemberState,
    re_added: bool,
    mostly: bool,
) -> Result<(), SinkFault>
    ensures { PutsOrFails S.contents S.failed out.old out.new
        (named_text (texts_of images.now) index dev_number state re_added mostly) result }
{
    number(out, index)?;
    number(out, dev_number)?;
    role(out, state)?;
    standing(out, state, re_added)?;
    flag(out, mostly)?;
    image(out, images, index)?;
    Ok(())
}

// The image, and the end of the line.
#[tactic(auto, using(md_streams::proofs::Puts::puts_then))]
fn image<S: Sink>(out: &mut S, images: &[&str], index: usize) -> Result<(), SinkFault>
    ensures { PutsOrFails S.contents S.failed out.old out.new
        (image_text (texts_of images.now) index) result }
{
    out.put(b"  ")?;
    put_image(out, images, index)?;
    out.put(b"\n")?;
    Ok(())
}

fn put_image<S: Sink>(out: &mut S, images: &[&str], index: usize) -> Result<(), SinkFault>
    ensures { PutsOrFails S.contents S.failed out.old out.new
        (shown (image_name (texts_of images.now) index)) result }
{
    put_name(out, image_name(images, index))
}

fn image_name<'a>(images: &[&'a str], index: usize) -> &'a str
    ensures { result.now ≡ image_name (texts_of images.now) index }
{
    match image_at(images, index) {
        Some(name) => name,
        None => "",
    }
}
