// The command that makes an array.
ghost use Rattle.std.specs.Prelude.{◌≡◌, ◌≢◌, ◌*◌, ◌≤◌, ℕ, Err, IfErr, IfOk, Some, codes, length, map, slice_get, true};
ghost use Rattle.md_commands.specs.Objects.{summary_shown};
ghost use Rattle.md_words.specs.Asks.{ask_of, is_json};
ghost use Rattle.md_state.specs.View.{Disk};
ghost use Rattle.md_messages.specs.Question.{question};
ghost use Rattle.md_messages.specs.Telling.{texts};
ghost use Rattle.md_cli.specs.Arrays.{UsesImages, disks};
ghost use Rattle.md_cli.specs.Creating.{AreNewMembers, CreatesOn, IsRefusal, LaysOutOn};
ghost use Rattle.md_cli.specs.Streams.{told_of};
ghost use Rattle.md_images.specs.Taking.{image_list, word_of};

use crate::create::lay_out_each::lay_out_each;
use crate::create::show_devices::show_created;
use crate::create::shown_names::shown_names;
use crate::create::sizing::sizes_of;
use crate::session::Session;
use md_create::{CreateFault, CreateParams, NewMember, create};
use md_device::Device;
use md_images::{Access, ImageWord, Images, MissingWord, image_list, put_back, take_images};
use md_messages::{Notices, ask_first};
use md_refusals::CommandFault;
use md_streams::{Asker, Sink};
use md_words::Command;
use std::alloc::Global;

// The members of the array that the devices make.
fn members_of<D: Device>(
    alloc: Global,
    params: &CreateParams,
    names: &[&str],
    devices: &[D],
) -> Result<Vec<NewMember>, CommandFault>
    requires as_many { length devices.now ≡ length (image_list true (texts names.now)) }
    ensures members { IfOk result (λ members.
        AreNewMembers params.now (texts names.now) (disks D.Device devices.now) members.items) }
    ensures refused { IfErr result (IsRefusal params.now (texts names.now) (disks D.Device devices.now)) }
{
    let Some(sizes) = sizes_of(names, devices) else {
        return Err(CommandFault::Create(CreateFault::BadGeometry));
    };
    match create(alloc, params, sizes.as_slice()) {
        Ok(members) => Ok(members),
        Err(fault) => Err(CommandFault::Create(fault)),
    }
}

// Lays the members of an array out on its devices, opens it and shows it. The devices come back in their order.
fn lay_out_on<D: Device + Drop, S: Sink>(
    alloc: Global,
    words: &[ImageWord<'_>],
    mut devices: Vec<D>,
    members: &[NewMember],
    json: bool,
    images: &[&str],
    out: &mut S,
) -> (Vec<D>, Result<(), CommandFault>)
    requires as_many { length devices.items ≡ length words.now }
    requires members { length members.now ≡ length devices.items }
    requires room { (k : ℕ) (d : Disk) → slice_get (disks D.Device devices.items) k ≡ Some d
        → 512 * 2048 ≤ length d.content }
    ensures as_many { length result.0.items ≡ length devices.items }
    ensures gives { LaysOutOn S.Sink (summary_shown (codes "create") json (texts images.now))
        (map word_of words.now) members.now
        (disks D.Device devices.items) (disks D.Device result.0.items) out.old out.new result.1 }
    ensures flushed { IfOk result.1 (λ _. S.is_flushed out.new) }
{
    let place = lay_out_each(devices.as_mut_slice(), members);
    if place < devices.len() {
        return (
            devices,
            Err(CommandFault::MetadataFault(words[place].index)),
        );
    }
    show_created(alloc, devices, json, images, out)
}

// Makes an array of the devices, opens it and shows it. What they hold is noted, and may be asked of, before
// anything is written. The devices come back in their order.
fn create_on<D: Device + Drop, T, R: Drop, S: Sink + Drop, W, A: Asker + Drop>(
    session: &mut Session<'_, T, R, S, W, A>,
    command: Command<'_>,
    params: &CreateParams,
    names: &[&str],
    words: &[ImageWord<'_>],
    mut devices: Vec<D>,
    notices: &mut Notices,
) -> (Vec<D>, Result<(), CommandFault>)
    requires words { map word_of words.now ≡ image_list true (texts names.now) }
    requires as_many { length devices.items ≡ length words.now }
    ensures as_many { length result.0.items ≡ length devices.items }
    ensures gives { CreatesOn S.Sink (is_json (ask_of command.entry))
        (question A.Asker (ask_of command.entry) (texts names.now))
        params.now (texts names.now)
        (disks D.Device devices.items) (disks D.Device result.0.items)
        (told_of session.old notices.old) (told_of session.new notices.new) result.1 }
    ensures flushed { IfOk result.1 (λ _. S.is_flushed session.new.out) }
{
    let members = match members_of(session.alloc, params, names, devices.as_slice()) {
        Ok(members) => members,
        Err(fault) => return (devices, Err(fault)),
    };
    let Ok(images) = shown_names(session.alloc, words) else {
        return (devices, Err(CommandFault::NoMemory));
    };
    if notices
        .note_held_on_each(session.alloc, &mut devices)
        .is_err()
    {
        return (devices, Err(CommandFault::NoMemory));
    }
    match ask_first(session.alloc, &mut session.asker, command, notices, names) {
        Ok(()) => {
            let (json, out) = (command.is_json(), &mut session.out);
            let (members, images) = (members.as_slice(), images.as_slice());
            lay_out_on(session.alloc, words, devices, members, json, images, out)
        }
        Err(fault) => (devices, Err(fault)),
    }
}

/// Makes an array of the images, shows it, and puts the images back. `notices` gets what they held.
pub(crate) fn create_images<I: Images, T, R: Drop, S: Sink + Drop, W, A: Asker + Drop>(
    session: &mut Session<'_, T, R, S, W, A>,
    command: Command<'_>,
    params: &CreateParams,
    images: &mut I,
    names: &[&str],
    notices: &mut Notices,
) -> Result<(), CommandFault>
    ensures gives { UsesImages I.Images I.Dev.Device
        (CreatesOn S.Sink (is_json (ask_of command.entry))
        (question A.Asker (ask_of command.entry) (texts names.now))
        params.now (texts names.now))
        Access.Change (image_list true (texts names.now))
        images.old images.new (told_of session.old notices.old) (told_of session.new notices.new) result }
    ensures flushed { IfOk result (λ _. S.is_flushed session.new.out) }
{
    let Ok(list) = image_list(session.alloc, names, MissingWord::StandsForAMember) else {
        return Err(CommandFault::NoMemory);
    };
    let words = list.as_slice();
    let devices = take_images(session.alloc, Access::Change, images, words)?;
    let (devices, result) = create_on(session, command, params, names, words, devices, notices);
    put_back(images, words, devices);
    result
}
