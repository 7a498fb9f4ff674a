// The commands that show one image.
ghost use Rattle.std.specs.Prelude.{◌≡◌, ◌≢◌, ℕ, Err, IfOk, List, [], ◌∷◌, length, map, true};
ghost use Rattle.md_members.specs.Reading.{CallFails};
ghost use Rattle.md_words.specs.Asks.{image_ask};
ghost use Rattle.md_examine_commands.specs.Examining.{Examines, ExaminesOne, IsBadblocksRefusal, IsBadblocksText, IsBitmapRefusal, IsBitmapText, IsSuperblockRefusal, IsSuperblockText, Reports};

use crate::raw_examining::{show_raw_badblocks, show_raw_bitmap, show_raw_superblock};
use crate::reports::{put_badblocks, put_bitmap, put_superblock};
use md_device::Device;
use md_images::{Access, ImageRefusal, Images};
use md_members::{read_member, read_super};
use md_refusals::CommandFault;
use md_streams::Sink;
use md_words::{ImageCommand, ImageForm};
use std::alloc::Global;

// Shows the superblock.
fn show_superblock<D: Device, S: Sink>(
    alloc: Global,
    json: bool,
    device: &mut D,
    out: &mut S,
) -> Result<(), CommandFault>
    ensures kept { D.content device.new ≡ D.content device.old }
    ensures honest { D.honest device.new ≡ D.honest device.old }
    ensures gives { Reports S.Sink (IsSuperblockText (D.content device.old) (D.honest device.old) json)
        (IsSuperblockRefusal (D.content device.old) (D.honest device.old)
        (CallFails D.Device device.old device.new)) out.old out.new result }
{
    let v = read_super(alloc, device).map_err(CommandFault::Member)?;
    put_superblock(out, json, &v)
}

// Shows the bitmap.
fn show_bitmap<D: Device, S: Sink>(
    alloc: Global,
    json: bool,
    device: &mut D,
    out: &mut S,
) -> Result<(), CommandFault>
    ensures kept { D.content device.new ≡ D.content device.old }
    ensures honest { D.honest device.new ≡ D.honest device.old }
    ensures gives { Reports S.Sink (IsBitmapText (D.content device.old) (D.honest device.old) json)
        (IsBitmapRefusal (D.content device.old) (D.honest device.old)
        (CallFails D.Device device.old device.new)) out.old out.new result }
{
    let member = read_member(alloc, device).map_err(CommandFault::Member)?;
    let Some(header) = &member.header else {
        return Err(CommandFault::NoBitmap);
    };
    let Some(marks) = &member.marks else {
        return Err(CommandFault::NoBitmap);
    };
    put_bitmap(out, json, header, marks)
}

// Shows the bad blocks.
fn show_badblocks<D: Device, S: Sink>(
    alloc: Global,
    json: bool,
    device: &mut D,
    out: &mut S,
) -> Result<(), CommandFault>
    ensures kept { D.content device.new ≡ D.content device.old }
    ensures honest { D.honest device.new ≡ D.honest device.old }
    ensures gives { Reports S.Sink (IsBadblocksText (D.content device.old) (D.honest device.old) json)
        (IsBadblocksRefusal (D.content device.old) (D.honest device.old)
        (CallFails D.Device device.old device.new)) out.old out.new result }
{
    let member = read_member(alloc, device).map_err(CommandFault::Member)?;
    put_badblocks(out, json, &member.bad)
}

fn show<D: Device, S: Sink>(
    alloc: Global,
    command: ImageCommand,
    device: &mut D,
    out: &mut S,
) -> Result<(), CommandFault>
    ensures kept { D.content device.new ≡ D.content device.old }
    ensures honest { D.honest device.new ≡ D.honest device.old }
    ensures gives { Examines (image_ask command) S.Sink (D.content device.old) (D.honest device.old)
        (CallFails D.Device device.old device.new) out.old out.new result }
{
    match command {
        ImageCommand::Examine { form } => match form {
            ImageForm::Raw => show_raw_superblock(false, device, out),
            ImageForm::RawJson => show_raw_superblock(true, device, out),
            ImageForm::Text => show_superblock(alloc, false, device, out),
            ImageForm::Json => show_superblock(alloc, true, device, out),
        },
        ImageCommand::ExamineBitmap { form } => match form {
            ImageForm::Raw => show_raw_bitmap(false, device, out),
            ImageForm::RawJson => show_raw_bitmap(true, device, out),
            ImageForm::Text => show_bitmap(alloc, false, device, out),
            ImageForm::Json => show_bitmap(alloc, true, device, out),
        },
        ImageCommand::ExamineBadblocks { form } => match form {
            ImageForm::Raw => show_raw_badblocks(false, device, out),
            ImageForm::RawJson => show_raw_badblocks(true, device, out),
            ImageForm::Text => show_badblocks(alloc, false, device, out),
            ImageForm::Json => show_badblocks(alloc, true, device, out),
        },
    }
}

/// Writes the report on the one image that is named, which is only looked at.
pub fn examine_images<I: Images, S: Sink>(
    alloc: Global,
    command: ImageCommand,
    images: &mut I,
    names: &[&str],
    out: &mut S,
) -> Result<(), CommandFault>
    ensures count { length names.now ≢ 1 →
        (result ≡ Err CommandFault.BadCount) × (images.new ≡ images.old) × (out.new ≡ out.old) }
    ensures one { (name : List ℕ) → map (λ s. s.now) names.now ≡ name ∷ [] →
        ExaminesOne (image_ask command) I.Dev.Device S.Sink (I.known images.old)
        (I.device_at images.old) (I.device_at images.new) name out.old out.new result }
    ensures looked { I.known images.old ≡ true →
        (n : List ℕ) → I.asked images.new n ≡ I.asked images.old n }
    ensures flushed { IfOk result (λ _. S.is_flushed out.new) }
{
    if names.len() != 1 {
        return Err(CommandFault::BadCount);
    }
    let name = names[0];
    let mut device = match images.get(name, Access::Look) {
        Ok(device) => device,
        Err(fault) => return Err(CommandFault::BadImage(0, ImageRefusal::Unopened(fault))),
    };
    let result = show(alloc, command, &mut device, out);
    images.put(name, device);
    result
}
