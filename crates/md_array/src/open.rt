// Opening devices as a mirror.
ghost use Rattle.std.specs.Prelude.{◌≡◌, IfOk, IfErr, MatchResult, length, map, OnOk, OnErr};
ghost use Rattle.md_kept_members.specs.Members.{NeedsMarks};
ghost use Rattle.md_state.specs.View.{disk_of};
ghost use Rattle.md_state.specs.DeviceChanges.{IsUntouched, StaysHonest};
ghost use Rattle.md_array.specs.Consistency.{IsConsistent};
ghost use Rattle.md_array.specs.Open.Opened.{IsArrayOf, IsOpenedFrom};
ghost use Rattle.md_array.specs.Open.Refusals.{RefusesArray, RefusesOpen, assembly_refusal_of};
ghost use Rattle.md_array.specs.Open.Members.{AreRead, RefusesReading, open_fault_of};
ghost use Rattle.md_array.specs.Fits.{Fits, FitsMember};
ghost use Rattle.md_array.specs.Open.Marks.{AreMarksOnDisks, FailsToStore, IsMarkedBy, RefusesStoringMarks, StoresMarksOn};

use crate::fault::OpenFault;
use crate::mirror::Mirror;
use md_assembly::{AssembleFault, assemble};
use md_device::{Device, WriteFault};
use md_kept_members::{Member, bitmap_start, needs_marks};
use md_members::{MemberFault, MemberInfo, read_member, store_bitmap};
use md_state::Array;
use std::alloc::Global;

impl<D: Device + Drop> Mirror<D> {
    /// Reads the members on the devices, assembles them, and stores marks on each member in sync whose
    /// bitmap does not tell of the array, before anything else is written. The fault is the first in
    /// the order of `OpenFault`; the devices are given back with it.
    pub fn open(alloc: Global, devices: Vec<D>) -> Result<Mirror<D>, (Vec<D>, OpenFault)>
        ensures gives { MatchResult result (λ m. IsOpenedFrom (map (disk_of D.Device) devices.items) m)
            (λ e. RefusesOpen (map (disk_of D.Device) devices.items) (map (disk_of D.Device) e.0.items) e.1) }
        ensures sound { IfOk result (λ m. IsConsistent m) }
    {
        let mut devices = devices;
        match open_array(alloc, &mut devices) {
            Ok(array) => Ok(Mirror { devices, array }),
            Err(fault) => Err((devices, fault)),
        }
    }
}

// The array that the devices make, whose marks are stored where they have to be.
fn open_array<D: Device>(alloc: Global, devices: &mut [D]) -> Result<Array, OpenFault>
    ensures ok { IfOk result (λ a. IsOpenedFrom (map (disk_of D.Device) devices.old) (record { disks = map (disk_of D.Device) devices.new; array = a })) }
    ensures err { IfErr result (RefusesOpen (map (disk_of D.Device) devices.old) (map (disk_of D.Device) devices.new)) }
    ensures len { length devices.new ≡ length devices.old }
{
    let array = array_of(alloc, devices)?;
    store_needed_marks(devices, &array)?;
    Ok(array)
}

// The array that the devices make, as it is kept.
fn array_of<D: Device>(alloc: Global, devices: &mut [D]) -> Result<Array, OpenFault>
    ensures untouched { IsUntouched (map (disk_of D.Device) devices.old) (map (disk_of D.Device) devices.new) }
    ensures ok { IfOk result (IsArrayOf (map (disk_of D.Device) devices.old)) }
    ensures err { IfErr result (RefusesArray (map (disk_of D.Device) devices.old) (map (disk_of D.Device) devices.new)) }
{
    let infos = read_members(alloc, devices)?;
    let assembly = assemble(alloc, &infos).map_err(assembly_refusal)?;
    Ok(Array::remember(alloc, infos, assembly)?)
}

// The fault of opening, where the members make no array.
fn assembly_refusal(fault: AssembleFault) -> OpenFault
    ensures { result ≡ assembly_refusal_of fault }
{
    match fault {
        AssembleFault::NoMemory => OpenFault::NoMemory,
        _ => OpenFault::Assemble(fault),
    }
}

/// Reads each device as a member, up to the first that is refused.
pub fn read_members<D: Device>(
    alloc: Global,
    devices: &mut [D],
) -> Result<Vec<MemberInfo>, OpenFault>
    ensures as_many { length devices.new ≡ length devices.old }
    ensures untouched { IsUntouched (map (disk_of D.Device) devices.old) (map (disk_of D.Device) devices.new) }
    ensures read { MatchResult result (λ infos. AreRead (map (disk_of D.Device) devices.old) infos.items)
        (RefusesReading (map (disk_of D.Device) devices.old) (map (disk_of D.Device) devices.new)) }
{
    let mut infos = Vec::with_capacity(alloc, devices.len())?;
    for k in 0..devices.len() {
        // For the proof: a device has at most 2^54 sectors.
        let _sectors = devices[k].sectors();
        match read_member(alloc, &mut devices[k]) {
            Ok(info) => infos.push_reserved(info),
            Err(fault) => return Err(refusal(k, fault)),
        }
    }
    Ok(infos)
}

// The fault of opening, where device k is not read as a member.
fn refusal(k: usize, fault: MemberFault) -> OpenFault
    ensures { result ≡ open_fault_of k fault }
{
    match fault {
        MemberFault::NoMemory => OpenFault::NoMemory,
        _ => OpenFault::Member(k, fault),
    }
}

/// Stores marks on each member in sync whose bitmap was not accepted, in the order of the members,
/// up to the first on which a write fails.
pub(crate) fn store_needed_marks<D: Device>(
    devices: &mut [D],
    array: &Array,
) -> Result<(), OpenFault>
    requires { Fits (map (disk_of D.Device) devices.old) array.now }
    ensures { MatchResult result (λ _. AreMarksOnDisks (map (disk_of D.Device) devices.old) (map (disk_of D.Device) devices.new) array.now)
        (RefusesStoringMarks array.now (map (disk_of D.Device) devices.old) (map (disk_of D.Device) devices.new)) }
{
    for k in 0..devices.len() {
        let member = &array.members[k];
        if store_where_needed(&mut devices[k], array, member).is_err() {
            return Err(OpenFault::MetadataFault(k));
        }
    }
    Ok(())
}

fn store_where_needed<D: Device>(
    device: &mut D,
    array: &Array,
    member: &Member,
) -> Result<(), WriteFault>
    requires { FitsMember array.now member.now (disk_of D.Device device.old) }
    ensures stays { StaysHonest (disk_of D.Device device.old) (disk_of D.Device device.new) }
    ensures ok { OnOk result (IsMarkedBy array.now member.now (disk_of D.Device device.old) (disk_of D.Device device.new)) }
    ensures needs { OnErr result (NeedsMarks member.now) }
    ensures fails { OnErr result (FailsToStore array.now member.now (disk_of D.Device device.old) (disk_of D.Device device.new)) }
{
    if needs_marks(member) {
        store_marks_on(device, array, member)
    } else {
        Ok(())
    }
}

/// Stores a member's marks on its device.
pub(crate) fn store_marks_on<D: Device>(
    device: &mut D,
    array: &Array,
    member: &Member,
) -> Result<(), WriteFault>
    requires { FitsMember array.now member.now (disk_of D.Device device.old) }
    ensures stays { StaysHonest (disk_of D.Device device.old) (disk_of D.Device device.new) }
    ensures ok { OnOk result (StoresMarksOn array.now member.now (disk_of D.Device device.old) (disk_of D.Device device.new)) }
    ensures fails { OnErr result (FailsToStore array.now member.now (disk_of D.Device device.old) (disk_of D.Device device.new)) }
{
    let start = bitmap_start(&member.superblock);
    let header = array.header_for(member);
    store_bitmap(device, start, &header, &member.stored)
}
