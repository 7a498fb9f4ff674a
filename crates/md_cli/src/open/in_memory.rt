// What members get in memory whose images are only looked at: a bitmap, and what stands in for a superblock.
ghost use Rattle.std.specs.Prelude.{◌≡◌, ◌<◌, IfOk, MatchResult, length, map};
ghost use Rattle.md_array.specs.Open.Opened.{IsOpenedFrom};
ghost use Rattle.md_read_commands.specs.Fronted.{fronted_disk, in_memory};
ghost use Rattle.md_cli.specs.Arrays.{disks};
ghost use Rattle.md_cli.specs.InMemory.{GetsBitmapInMemory, GetsNoBitmap, GetsStandIn, MakesNoArray, PutsStandIn, RefusesCounted, RefusesStandIn, given_or_had, refusal_of};

use md_array::{Mirror, OpenFault};
use md_device::Device;
use md_metadata::{GrowFault, grow};
use md_read_commands::{FrontedDevice, StandIn, front_each, put_stand_in};
use md_refusals::{CommandFault, DataOfFault, OptionFault};
use std::alloc::Global;

/// Gives the members on devices a bitmap with chunks of so many bytes, where one is asked for. Where each has one already,
/// as of an array that was given one since, the array is what was asked for, and nothing is written.
pub(crate) fn with_bitmap<D: Device + Drop>(
    alloc: Global,
    mut devices: Vec<D>,
    chunk: Option<u32>,
) -> Result<Vec<D>, GrowFault>
    ensures as_many { IfOk result (λ given. length given.items ≡ length devices.items) }
    ensures gives { MatchResult result
        (λ given. GetsBitmapInMemory chunk (disks D.Device devices.items) (disks D.Device given.items))
        (GetsNoBitmap chunk (disks D.Device devices.items)) }
{
    let Some(chunk_bytes) = chunk else {
        return Ok(devices);
    };
    given_or_had(grow(alloc, devices.as_mut_slice(), chunk_bytes))?;
    Ok(devices)
}

// An answer of `grow`, where it is as well that each member has a bitmap already.
fn given_or_had(answer: Result<(), GrowFault>) -> Result<(), GrowFault>
    ensures { result ≡ given_or_had answer }
{
    match answer {
        Err(GrowFault::HasBitmap) => Ok(()),
        _ => answer,
    }
}

/// Gives the member on one of the devices what stands in for a superblock and a bitmap that can't be read, where that is asked for.
pub(crate) fn with_stand_in<D: Device + Drop>(
    alloc: Global,
    devices: Vec<D>,
    wanted: Option<StandIn>,
) -> Result<Vec<FrontedDevice<D>>, CommandFault>
    ensures some { IfOk result (λ all. 0 < length devices.items → 0 < length all.items) }
    ensures gives { MatchResult result
        (λ all. GetsStandIn wanted (map in_memory (disks D.Device devices.items))
        (map (fronted_disk D.Device) all.items))
        (RefusesStandIn wanted (map in_memory (disks D.Device devices.items))) }
{
    match wanted {
        Some(wanted) => with_counted(alloc, devices, wanted),
        None => as_they_are(alloc, devices),
    }
}

// The devices as they are.
fn as_they_are<D: Device + Drop>(
    alloc: Global,
    devices: Vec<D>,
) -> Result<Vec<FrontedDevice<D>>, CommandFault>
    ensures { MatchResult result
        (λ all. map (fronted_disk D.Device) all.items ≡ map in_memory (disks D.Device devices.items))
        (λ why. why ≡ CommandFault.NoMemory) }
{
    match front_each(alloc, devices) {
        Ok(fronted) => Ok(fronted),
        Err(_) => Err(CommandFault::NoMemory),
    }
}

// Gives it to the member on the device of this index.
fn with_counted<D: Device + Drop>(
    alloc: Global,
    mut devices: Vec<D>,
    wanted: StandIn,
) -> Result<Vec<FrontedDevice<D>>, CommandFault>
    ensures some { IfOk result (λ all. 0 < length all.items) }
    ensures gives { MatchResult result
        (λ all. PutsStandIn wanted (map in_memory (disks D.Device devices.items))
        (map (fronted_disk D.Device) all.items))
        (RefusesCounted wanted (map in_memory (disks D.Device devices.items))) }
{
    if wanted.index >= devices.len() {
        return Err(refusal_of(DataOfFault::BadDataOf));
    }
    let lost = devices.remove(wanted.index);
    let mirror = array_beside(alloc, devices)?;
    let kept = match put_stand_in(alloc, &mirror, lost, wanted) {
        Ok(kept) => kept,
        Err(fault) => return Err(refusal_of(fault)),
    };
    let mut all = mirror.into_devices();
    match all.insert(wanted.index, kept) {
        Ok(()) => Ok(all),
        Err(_) => Err(CommandFault::NoMemory),
    }
}

// The array that the other devices make.
fn array_beside<D: Device + Drop>(
    alloc: Global,
    devices: Vec<D>,
) -> Result<Mirror<FrontedDevice<D>>, CommandFault>
    ensures { MatchResult result (IsOpenedFrom (map in_memory (disks D.Device devices.items))) MakesNoArray }
{
    let fronted = as_they_are(alloc, devices)?;
    match Mirror::open(alloc, fronted) {
        Ok(mirror) => Ok(mirror),
        Err((_, OpenFault::NoMemory)) => Err(CommandFault::NoMemory),
        Err(_) => Err(refusal_of(DataOfFault::NoArrayBeside)),
    }
}

// The refusal of a command for a fault of `--data-of`.
fn refusal_of(fault: DataOfFault) -> CommandFault
    ensures { result ≡ refusal_of fault }
{
    match fault {
        DataOfFault::NoMemory => CommandFault::NoMemory,
        _ => CommandFault::Options(OptionFault::DataOf(fault)),
    }
}
