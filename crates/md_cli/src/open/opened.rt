// An opened array, and a device beside it.
ghost use Rattle.std.specs.Prelude.{◌≡◌, ◌+◌, ◌<◌, ◌≤◌, [], IfErr, IfOk, is_some, length, option_map, true, vec_capacity};
ghost use Rattle.md_state.specs.View.{disk_of};
ghost use Rattle.md_words.specs.Asks.{array_ask, ask_of, device_to_add, leaving_of};
ghost use Rattle.md_cli.specs.Arrays.{TakesLast, disks};
ghost use Rattle.md_cli.specs.Opened.{moves_device, beside_place, count, with_beside};

use md_array::Mirror;
use md_device::Device;
use md_messages::Notices;
use md_words::{ArrayCommand, Command};
use std::alloc::{AllocError, Global};

/// An array as a mirror, and a device that is none of its members': before a command one that is to join, and after it
/// one that did not, or that of a member which left.
#[derive(Drop)]
pub(crate) struct Opened<D: Device + Drop> {
    pub(crate) mirror: Mirror<D>,
    pub(crate) beside: Option<D>,
}

/// A list that is empty. Where a device may come back from beside the array, it has room for so many.
pub(crate) fn room_for<D>(
    alloc: Global,
    command: ArrayCommand<'_>,
    count: usize,
) -> Result<Vec<D>, AllocError>
    ensures empty { IfOk result (λ list. list.items ≡ []) }
    ensures room { IfOk result
        (λ list. moves_device (array_ask command.entry) ≡ true → count ≤ vec_capacity list) }
    ensures memory { IfErr result (λ _. moves_device (array_ask command.entry) ≡ true) }
{
    if command.device().is_some() || command.leaving().is_some() {
        return Vec::with_capacity(alloc, count);
    }
    Ok(Vec::new(alloc))
}

// The place among all devices of the one beside the array: that of the member that left, or the last.
fn place_of(command: ArrayCommand<'_>, last: usize) -> usize
    ensures { result ≡ beside_place (array_ask command.entry) last }
{
    match command.leaving() {
        Some(member) => member as usize,
        None => last,
    }
}

/// Takes the device out of the list that is to join the array, where the command brings one: the last. What it holds is noted.
pub(crate) fn take_beside<D: Device + Drop>(
    alloc: Global,
    command: Command<'_>,
    devices: &mut Vec<D>,
    notices: &mut Notices,
) -> Option<D>
    requires brings { is_some (device_to_add (ask_of command)) ≡ true → 0 < length devices.old.items }
    ensures as_many { length devices.new.items + count result ≡ length devices.old.items }
    ensures brings { is_some result ≡ is_some (device_to_add (ask_of command.entry)) }
    ensures takes { TakesLast (ask_of command.entry)
        (disks D.Device devices.old.items) (disks D.Device devices.new.items)
        (option_map (disk_of D.Device) result) notices.old notices.new }
{
    match command.device() {
        None => None,
        Some(_) => {
            let Some(mut device) = devices.pop() else {
                unreachable!()
            };
            notices.note_held(alloc, &mut device);
            Some(device)
        }
    }
}

/// All devices, those of the members and the one beside them, in the order of their images, in a list that is empty and
/// has room for them.
pub(crate) fn all_back<D: Drop>(
    command: ArrayCommand<'_>,
    mut list: Vec<D>,
    mut members: Vec<D>,
    beside: Option<D>,
) -> Vec<D>
    requires empty { list.items ≡ [] }
    requires room { is_some beside ≡ true → length members.items < vec_capacity list }
    requires within { is_some beside ≡ true →
        beside_place (array_ask command) (length members.items) ≤ length members.items }
    ensures { result.items ≡ with_beside (array_ask command.entry) members.items beside }
{
    let Some(device) = beside else {
        return members;
    };
    let place = place_of(command, members.len());
    if list.append(&mut members).is_err() {
        unreachable!()
    }
    if list.insert(place, device).is_err() {
        unreachable!()
    }
    list
}
