// The command that gives an array a bitmap.
ghost use Rattle.std.specs.Prelude.{◌≡◌, IfOk, None, Some, false, length, option_map};
ghost use Rattle.md_images.specs.Taking.{image_list};
ghost use Rattle.md_words.specs.Asks.{ask_of, device_to_add};
ghost use Rattle.md_messages.specs.Telling.{texts};
ghost use Rattle.md_cli.specs.AllNamed.{ChecksNamed};
ghost use Rattle.md_cli.specs.Arrays.{ChangesDevices, UsesImages, disks};
ghost use Rattle.md_cli.specs.Growing.{GrowsArray, GrowsOn, GrowsTold, chunk_asked, chunk_in_memory};
ghost use Rattle.md_cli.specs.Streams.{told_of};

use crate::create::{bytes_of, show_devices};
use crate::open::check_named;
use crate::session::Session;
use md_device::Device;
use md_images::{Access, Images, MissingWord, SharedRead, image_list, put_back, take_images};
use md_messages::Notices;
use md_metadata::grow;
use md_refusals::{CommandFault, OptionFault};
use md_streams::{Asker, Sink};
use md_words::Command;
use std::alloc::Global;

// The KiB of a chunk of a bitmap in memory, which is what `grow` takes by default.
const CHUNK_IN_MEMORY: u32 = 65536;

// The bytes of a chunk that the options ask for.
fn chunk_asked(bitmap: &str, kib: u32) -> Result<u32, CommandFault>
    ensures { result ≡ chunk_asked bitmap.now kib }
{
    if bitmap != "internal" {
        return Err(CommandFault::Options(OptionFault::BadBitmap));
    }
    match bytes_of(kib) {
        Some(bytes) => Ok(bytes),
        None => Err(CommandFault::Options(OptionFault::BadChunk)),
    }
}

/// The bytes of a chunk of the bitmap that members get in memory, where one is asked for.
pub(crate) fn chunk_in_memory(bitmap: Option<&str>) -> Result<Option<u32>, CommandFault>
    ensures { result ≡ chunk_in_memory (option_map (λ s. s.now) bitmap.entry) }
{
    match bitmap {
        Some(kind) => Ok(Some(chunk_asked(kind, CHUNK_IN_MEMORY)?)),
        None => Ok(None),
    }
}

// Gives the members a bitmap, opens them and shows the array in a line. The devices come back in their order.
fn grow_on<D: Device + Drop, S: Sink>(
    alloc: Global,
    mut devices: Vec<D>,
    chunk_bytes: u32,
    out: &mut S,
) -> (Vec<D>, Result<(), CommandFault>)
    ensures as_many { length result.0.items ≡ length devices.items }
    ensures gives { GrowsOn S.Sink chunk_bytes (disks D.Device devices.items)
        (disks D.Device result.0.items) out.old out.new result.1 }
    ensures flushed { IfOk result.1 (λ _. S.is_flushed out.new) }
{
    match grow(alloc, devices.as_mut_slice(), chunk_bytes) {
        Ok(()) => show_devices(alloc, devices, out),
        Err(fault) => (devices, Err(CommandFault::Grow(fault))),
    }
}

// Asks first if a member in sync is not among the devices, and then gives them a bitmap.
fn grow_named<D: SharedRead + Drop + Sync, T, R: Drop, S: Sink + Drop, W, A: Asker + Drop>(
    session: &mut Session<'_, T, R, S, W, A>,
    command: Command<'_>,
    chunk_bytes: u32,
    devices: Vec<D>,
    notices: &mut Notices,
) -> (Vec<D>, Result<(), CommandFault>)
    requires none { device_to_add (ask_of command) ≡ None }
    ensures as_many { length result.0.items ≡ length devices.items }
    ensures gives { ChangesDevices (ChecksNamed A.Asker (ask_of command.entry) (Some chunk_bytes))
        (GrowsTold S.Sink chunk_bytes) (disks D.Device devices.items) (disks D.Device result.0.items)
        (told_of session.old notices.old) (told_of session.new notices.new) result.1 }
    ensures flushed { IfOk result.1 (λ _. S.is_flushed session.new.out) }
{
    let (alloc, chunk) = (session.alloc, Some(chunk_bytes));
    match check_named(alloc, &mut session.asker, command, chunk, &devices, notices) {
        Ok(()) => grow_on(alloc, devices, chunk_bytes, &mut session.out),
        Err(fault) => (devices, Err(fault)),
    }
}

/// Gives the members on the images a bitmap of this kind, and puts the images back. No image is touched before the options are
/// accepted. `notices` gets what is noticed of the array.
pub(crate) fn grow_array<I: Images, T, R: Drop, S: Sink + Drop, W, A: Asker + Drop>(
    session: &mut Session<'_, T, R, S, W, A>,
    bitmap: &str,
    kib: u32,
    images: &mut I,
    names: &[&str],
    notices: &mut Notices,
) -> Result<(), CommandFault>
    ensures gives { GrowsArray I.Images I.Dev.Device S.Sink A.Asker bitmap.now kib (texts names.now)
        images.old images.new (told_of session.old notices.old) (told_of session.new notices.new) result }
    ensures flushed { IfOk result (λ _. S.is_flushed session.new.out) }
{
    let chunk_bytes = chunk_asked(bitmap, kib)?;
    let command = Command::Grow { bitmap, chunk: kib };
    grow_images(session, command, chunk_bytes, images, names, notices)
}

fn grow_images<I: Images, T, R: Drop, S: Sink + Drop, W, A: Asker + Drop>(
    session: &mut Session<'_, T, R, S, W, A>,
    command: Command<'_>,
    chunk_bytes: u32,
    images: &mut I,
    names: &[&str],
    notices: &mut Notices,
) -> Result<(), CommandFault>
    requires none { device_to_add (ask_of command) ≡ None }
    ensures gives { UsesImages I.Images I.Dev.Device
        (ChangesDevices (ChecksNamed A.Asker (ask_of command.entry) (Some chunk_bytes))
        (GrowsTold S.Sink chunk_bytes)) Access.Change (image_list false (texts names.now))
        images.old images.new (told_of session.old notices.old) (told_of session.new notices.new) result }
    ensures flushed { IfOk result (λ _. S.is_flushed session.new.out) }
{
    let Ok(list) = image_list(session.alloc, names, MissingWord::NamesAnImage) else {
        return Err(CommandFault::NoMemory);
    };
    let words = list.as_slice();
    let devices = take_images(session.alloc, Access::Change, images, words)?;
    let (devices, result) = grow_named(session, command, chunk_bytes, devices, notices);
    put_back(images, words, devices);
    result
}
