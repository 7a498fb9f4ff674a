// The commands that open the array that images make.
ghost use Rattle.std.specs.Prelude.{◌≡◌, ◌<◌, ◌++◌, ◌∷◌, [], IfOk, is_some, length, option_map, true};
ghost use Rattle.md_words.specs.Asks.{array_ask};
ghost use Rattle.md_messages.specs.Telling.{texts};
ghost use Rattle.md_cli.specs.Opened.{with_last};
ghost use Rattle.md_cli.specs.Running.{OpensWithBitmap};
ghost use Rattle.md_cli.specs.Streams.{told_of};

use crate::growing::chunk_in_memory;
use crate::open::devices::{change_devices, look_at_devices};
use crate::session::Session;
use md_images::{Images, MissingWord, image_list, put_back, take_images};
use md_messages::Notices;
use md_nbd::ClientWatch;
use md_refusals::CommandFault;
use md_streams::{Asker, ReadWatch, Sink, Source};
use md_words::ArrayCommand;
use std::alloc::{AllocError, Global};
use std::sync::Wait;
use std::thread::Threads;

/// Does a command with the array that images make, and puts them back; the image that is to join it counts after the
/// others. `notices` gets what is noticed of the array. Where no image may be changed, the members may get a bitmap in memory, whose
/// kind is looked at before any image is touched.
pub(crate) fn with_array<
    I: Images,
    T: Threads + Wait + Sync,
    R: Source + Drop,
    S: Sink + Drop,
    W: ReadWatch + ClientWatch + Sync,
    A: Asker + Drop,
>(
    session: &mut Session<'_, T, R, S, W, A>,
    command: ArrayCommand<'_>,
    bitmap: Option<&str>,
    images: &mut I,
    names: &[&str],
    notices: &mut Notices,
) -> Result<(), CommandFault>
    ensures gives { OpensWithBitmap I.Images I.Dev.Device R.Source S.Sink A.Asker session.old.lacking.now
        (option_map (λ s. s.now) bitmap.entry) (array_ask command.entry) (texts names.now)
        images.old images.new (told_of session.old notices.old) (told_of session.new notices.new) result }
    ensures flushed { IfOk result (λ _. S.is_flushed session.new.out) }
{
    let chunk = chunk_in_memory(bitmap)?;
    let Ok(all) = names_with(session.alloc, names, command.device()) else {
        return Err(CommandFault::NoMemory);
    };
    let names = all.as_slice();
    let Ok(list) = image_list(session.alloc, names, MissingWord::NamesAnImage) else {
        return Err(CommandFault::NoMemory);
    };
    let words = list.as_slice();
    let devices = take_images(session.alloc, command.access(), images, words)?;
    if command.is_readonly() {
        let result = look_at_devices(session, command, chunk, &devices, notices, names);
        put_back(images, words, devices);
        return result;
    }
    let (devices, result) = change_devices(session, command, devices, notices, names);
    put_back(images, words, devices);
    result
}

// The names, and after them that of the image that is to join.
fn names_with<'a>(
    alloc: Global,
    names: &[&'a str],
    joining: Option<&'a str>,
) -> Result<Vec<&'a str>, AllocError>
    ensures all { IfOk result
        (λ all. texts all.items ≡ with_last (texts names.now) (option_map (λ s. s.now) joining.entry)) }
    ensures some { IfOk result (λ all. is_some joining.entry ≡ true → 0 < length all.items) }
{
    match joining {
        None => Vec::from_slice(alloc, names),
        Some(name) => with_name(alloc, names, name),
    }
}

// The names and then one more.
fn with_name<'a>(
    alloc: Global,
    names: &[&'a str],
    name: &'a str,
) -> Result<Vec<&'a str>, AllocError>
    ensures { IfOk result (λ all. texts all.items ≡ texts names.now ++ name.entry.now ∷ []) }
{
    let mut all = Vec::from_slice(alloc, names)?;
    all.push(name)?;
    Ok(all)
}
