// Whether all members in sync are among the images.
ghost use Rattle.std.specs.Prelude.{◌≡◌, ◌<◌, MatchResult, is_some, length, map, true};
ghost use Rattle.md_words.specs.Asks.{ask_of, device_to_add};
ghost use Rattle.md_cli.specs.AllNamed.{ChecksNamed, MakesNone, NotesArray, answer_unopened};
ghost use Rattle.md_cli.specs.Arrays.{disks};

use crate::open::in_memory::with_bitmap;
use crate::open::opened::take_beside;
use md_array::{Mirror, OpenFault};
use md_device::Device;
use md_images::{SharedRead, lay_over};
use md_messages::{Notices, ask_of_absent};
use md_metadata::GrowFault;
use md_refusals::CommandFault;
use md_streams::Asker;
use md_words::Command;
use std::alloc::Global;

/// Asks before a command that may part an array, if a member in sync is not among the images. What an opening would store is kept
/// in memory, as is the bitmap that the members are to get, if one is asked for. So no image is changed before the answer. `notices`
/// gets what is noticed.
pub(crate) fn check_named<D: SharedRead + Drop + Sync, A: Asker>(
    alloc: Global,
    asker: &mut A,
    command: Command<'_>,
    chunk: Option<u32>,
    devices: &[D],
    notices: &mut Notices,
) -> Result<(), CommandFault>
    requires brings { is_some (device_to_add (ask_of command)) ≡ true → 0 < length devices.now }
    ensures { ChecksNamed A.Asker (ask_of command.entry) chunk (disks D.Device devices.now)
        asker.old asker.new notices.old notices.new result }
{
    if !command.may_part() {
        return Ok(());
    }
    let Ok(overlays) = lay_over(alloc, devices) else {
        return Err(CommandFault::NoMemory);
    };
    match note_array(alloc, command, chunk, overlays) {
        Ok(looked) => {
            *notices = looked;
            ask_of_absent(alloc, asker, notices)
        }
        Err(fault) => answer_unopened(fault),
    }
}

// Opens devices as an array, but for the last if it is to join it, and gives what there is to notice.
fn note_array<D: Device + Drop>(
    alloc: Global,
    command: Command<'_>,
    chunk: Option<u32>,
    devices: Vec<D>,
) -> Result<Notices, CommandFault>
    requires brings { is_some (device_to_add (ask_of command)) ≡ true → 0 < length devices.items }
    ensures { MatchResult result
        (NotesArray (ask_of command.entry) chunk (disks D.Device devices.items))
        (MakesNone (ask_of command.entry) chunk (disks D.Device devices.items)) }
{
    let mut given = match with_bitmap(alloc, devices, chunk) {
        Ok(given) => given,
        Err(fault) => return Err(CommandFault::Grow(fault)),
    };
    let mut notices = Notices::none();
    let beside = take_beside(alloc, command, &mut given, &mut notices);
    drop(beside);
    match Mirror::open(alloc, given) {
        Ok(mirror) => {
            notices.note(command, &mirror);
            notices.forget_stored();
            Ok(notices)
        }
        Err((_, fault)) => Err(CommandFault::Open(fault)),
    }
}

// If devices are not opened, the command is refused as its own opening would be: a read that failed once may not fail again, and nobody
// would be asked. A write that fails in memory found no memory.
fn answer_unopened(fault: CommandFault) -> Result<(), CommandFault>
    ensures { result ≡ answer_unopened fault }
{
    match fault {
        CommandFault::Open(OpenFault::NoMemory) => Err(CommandFault::NoMemory),
        CommandFault::Open(OpenFault::MetadataFault(_)) => Err(CommandFault::NoMemory),
        CommandFault::Grow(GrowFault::NoMemory) => Err(CommandFault::NoMemory),
        CommandFault::Grow(GrowFault::MetadataFault(_)) => Err(CommandFault::NoMemory),
        fault => Err(fault),
    }
}
