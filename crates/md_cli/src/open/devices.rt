// What commands do with the devices of images, as an array.
ghost use Rattle.std.specs.Prelude.{◌≡◌, ◌<◌, ◌≤◌, [], IfOk, None, is_some, length, option_map, true, vec_capacity};
ghost use Rattle.md_state.specs.View.{disk_of};
ghost use Rattle.md_words.specs.Asks.{array_ask, device_to_add};
ghost use Rattle.md_messages.specs.Noticed.{with_dropped};
ghost use Rattle.md_messages.specs.Question.{question};
ghost use Rattle.md_messages.specs.Telling.{texts};
ghost use Rattle.md_cli.specs.AllNamed.{ChecksNamed};
ghost use Rattle.md_cli.specs.Arrays.{ChangesDevices, LooksAtDevices, OpensDevices, answer_of_overlays, disks};
ghost use Rattle.md_cli.specs.Opened.{beside_place, with_beside};
ghost use Rattle.md_cli.specs.Streams.{told_of};

use crate::lists::{goes_on, open_lacking, perform_and_store};
use crate::open::all_named::check_named;
use crate::open::in_memory::{with_bitmap, with_stand_in};
use crate::open::opened::{Opened, all_back, room_for, take_beside};
use crate::session::Session;
use md_array::OpenFault;
use md_device::Device;
use md_images::{SharedRead, lay_over};
use md_messages::Notices;
use md_metadata::GrowFault;
use md_nbd::ClientWatch;
use md_refusals::CommandFault;
use md_streams::{Asker, ReadWatch, Sink, Source};
use md_words::{ArrayCommand, Command};
use std::alloc::Global;
use std::sync::Wait;
use std::thread::Threads;

/// Does a command with devices that are only looked at: what is written to the array is kept in memory. So is a bitmap that
/// its members get first, where one is asked for. The names are those of the devices' images, of which the last is the one that is
/// to join the array. `notices` gets what is noticed of it.
pub(crate) fn look_at_devices<
    D: SharedRead + Drop + Sync,
    T: Threads + Wait + Sync,
    R: Source + Drop,
    S: Sink + Drop,
    W: ReadWatch + ClientWatch + Sync,
    A: Asker + Drop,
>(
    session: &mut Session<'_, T, R, S, W, A>,
    command: ArrayCommand<'_>,
    chunk: Option<u32>,
    devices: &[D],
    notices: &mut Notices,
    names: &[&str],
) -> Result<(), CommandFault>
    requires brings { is_some (device_to_add (array_ask command)) ≡ true → 0 < length devices.now }
    ensures gives { LooksAtDevices R.Source S.Sink
        (question A.Asker (array_ask command.entry) (texts names.now)) (texts names.now)
        session.old.lacking.now (array_ask command.entry) chunk
        (disks D.Device devices.now)
        (told_of session.old notices.old) (told_of session.new notices.new) result }
    ensures flushed { IfOk result (λ _. S.is_flushed session.new.out) }
{
    let Ok(overlays) = lay_over(session.alloc, devices) else {
        return Err(CommandFault::NoMemory);
    };
    let fronted = with_stand_in(session.alloc, overlays, session.stand_in)?;
    let given = match with_bitmap(session.alloc, fronted, chunk) {
        Ok(given) => given,
        Err(fault) => return answer_of_overlays(Err(CommandFault::Grow(fault))),
    };
    let (overlays, result) = open_devices(session, command, given, notices, names);
    drop(overlays);
    // Nothing was stored but in memory.
    notices.forget_stored();
    answer_of_overlays(result)
}

// What an answer says of overlays, which refuse a write only where there is no memory for it.
fn answer_of_overlays(answer: Result<(), CommandFault>) -> Result<(), CommandFault>
    ensures told { result ≡ answer_of_overlays answer }
    ensures done { IfOk result (λ _. answer ≡ result) }
{
    match answer {
        Ok(()) => Ok(()),
        Err(CommandFault::Open(OpenFault::MetadataFault(_))) => Err(CommandFault::NoMemory),
        Err(CommandFault::Grow(GrowFault::MetadataFault(_))) => Err(CommandFault::NoMemory),
        Err(fault) => Err(fault),
    }
}

/// Does a command with devices that may be changed. If it may part the array, and a member in sync is not among them, it is asked
/// first, and no device is changed before the answer.
pub(crate) fn change_devices<
    D: SharedRead + Drop + Send + Sync,
    T: Threads + Wait + Sync,
    R: Source + Drop,
    S: Sink + Drop,
    W: ReadWatch + ClientWatch + Sync,
    A: Asker + Drop,
>(
    session: &mut Session<'_, T, R, S, W, A>,
    command: ArrayCommand<'_>,
    devices: Vec<D>,
    notices: &mut Notices,
    names: &[&str],
) -> (Vec<D>, Result<(), CommandFault>)
    requires brings { is_some (device_to_add (array_ask command)) ≡ true → 0 < length devices.items }
    ensures as_many { length result.0.items ≡ length devices.items }
    ensures gives { ChangesDevices
        (ChecksNamed A.Asker (array_ask command.entry) None)
        (OpensDevices R.Source S.Sink
        (question A.Asker (array_ask command.entry) (texts names.now)) (texts names.now)
        session.old.lacking.now (array_ask command.entry))
        (disks D.Device devices.items) (disks D.Device result.0.items)
        (told_of session.old notices.old) (told_of session.new notices.new) result.1 }
    ensures flushed { IfOk result.1 (λ _. S.is_flushed session.new.out) }
{
    match check_named(
        session.alloc,
        &mut session.asker,
        Command::Array(command),
        None,
        &devices,
        notices,
    ) {
        Ok(()) => open_devices(session, command, devices, notices, names),
        Err(fault) => (devices, Err(fault)),
    }
}

/// Opens devices as an array, but for the last where it is to join it, and does a command with it. What images lack by their
/// maps counts as listed; of a recovering member that is rebuilt it is refused. Where the command would overwrite what perhaps
/// should stay, by what was noticed, it is asked first. The devices come back in their order. The names are those of their
/// images. `notices` gets what is noticed of the array.
pub(crate) fn open_devices<
    D: Device + Drop + Send,
    T: Threads + Wait + Sync,
    R: Source + Drop,
    S: Sink + Drop,
    W: ReadWatch + ClientWatch + Sync,
    A: Asker + Drop,
>(
    session: &mut Session<'_, T, R, S, W, A>,
    command: ArrayCommand<'_>,
    mut devices: Vec<D>,
    notices: &mut Notices,
    names: &[&str],
) -> (Vec<D>, Result<(), CommandFault>)
    requires brings { is_some (device_to_add (array_ask command)) ≡ true → 0 < length devices.items }
    ensures as_many { length result.0.items ≡ length devices.items }
    ensures gives { OpensDevices R.Source S.Sink
        (question A.Asker (array_ask command.entry) (texts names.now)) (texts names.now)
        session.old.lacking.now (array_ask command.entry)
        (disks D.Device devices.items) (disks D.Device result.0.items)
        (told_of session.old notices.old) (told_of session.new notices.new) result.1 }
    ensures flushed { IfOk result.1 (λ _. S.is_flushed session.new.out) }
{
    let Ok(list) = room_for(session.alloc, command, devices.len()) else {
        return (devices, Err(CommandFault::NoMemory));
    };
    let beside = take_beside(
        session.alloc,
        Command::Array(command),
        &mut devices,
        notices,
    );
    let mirror = match open_lacking(session.alloc, command, session.lacking, devices) {
        Ok(mirror) => mirror,
        Err((members, fault)) => {
            let devices = all_back(command, list, members, beside);
            return (devices, Err(CommandFault::Open(fault)));
        }
    };
    notices.note(Command::Array(command), &mirror);
    let mut opened = Opened { mirror, beside };
    match goes_on(
        session.alloc,
        &mut session.asker,
        session.lacking,
        command,
        &opened.mirror,
        notices,
        names,
    ) {
        Ok(()) => {
            let done = perform_and_store(session, command, &mut opened, names);
            (let_go(command, list, opened, notices), done)
        }
        Err(fault) => (let_go(command, list, opened, notices), Err(fault)),
    }
}

// Lets go of an array as a command left it: all devices come back in the order of their images, in a list that is empty and has room
// for them. What the array dropped is noted.
fn let_go<D: Device + Drop>(
    command: ArrayCommand<'_>,
    list: Vec<D>,
    opened: Opened<D>,
    notices: &mut Notices,
) -> Vec<D>
    requires empty { list.items ≡ [] }
    requires room { is_some opened.beside ≡ true → length opened.mirror.disks < vec_capacity list }
    requires within { is_some opened.beside ≡ true →
        beside_place (array_ask command) (length opened.mirror.disks) ≤ length opened.mirror.disks }
    ensures dropped { notices.new ≡ with_dropped (array_ask command.entry) opened.mirror.array
        (is_some opened.beside) notices.old }
    ensures all { disks D.Device result.items ≡ with_beside (array_ask command.entry) opened.mirror.disks
        (option_map (disk_of D.Device) opened.beside) }
{
    notices.note_dropped(
        Command::Array(command),
        &opened.mirror,
        opened.beside.is_some(),
    );
    let members = opened.mirror.into_devices();
    all_back(command, list, members, opened.beside)
}
