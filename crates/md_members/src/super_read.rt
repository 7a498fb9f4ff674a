// Reading a device's sectors, and its superblock.
ghost use Rattle.std.specs.Prelude.{◌≡◌, ◌≤◌, ◌+◌, ◌*◌, ◌%◌, true, length, IfErr, OnOk};
ghost use Rattle.md_device.specs.Crashes.{LeavesMore};
ghost use Rattle.md_device.specs.Failing.{AddsItself, EachNewFault, failed_read};
ghost use Rattle.md_members.specs.Reading.{CallFails, GivesSuper, IsRead, IsReadOf, UnlessReadFault};

use crate::fault::MemberFault;
use md_device::Device;
use md_super::{SUPER_SECTOR, SuperFault, Superblock, decode};
use std::alloc::Global;

// The sectors up to the superblock's end.
const LEAST_SECTORS: u64 = 16;

/// Reads sectors 8 to 15 of a device, once, and nothing else.
#[tactic(auto, using(md_device::proofs::Failing::fails_none, md_device::proofs::Failing::fails_then, md_device::proofs::Failing::fails_call))]
pub fn read_super<D: Device>(alloc: Global, device: &mut D) -> Result<Superblock, MemberFault>
    ensures kept { D.content device.new ≡ D.content device.old }
    ensures honest { D.honest device.new ≡ D.honest device.old }
    ensures counted { D.failures device.old ≤ D.failures device.new }
    ensures grown { EachNewFault (D.faults device.old) (D.faults device.new) (IsReadOf 8 4096) }
    ensures unfailing { UnlessReadFault result (D.failures device.new ≡ D.failures device.old) }
    ensures within { D.honest device.old ≡ true → LeavesMore (D.crashes device.old) (D.crashes device.new) (λ left. left ≡ D.content device.old) }
    ensures reads { GivesSuper (D.content device.old) (D.honest device.old) (CallFails D.Device device.old device.new) result }
{
    if device.sectors() < LEAST_SECTORS {
        return Err(MemberFault::TooShort);
    }
    let mut block = [0; 4096];
    read_sectors(device, SUPER_SECTOR, &mut block)?;
    match decode(alloc, &block) {
        Ok(v) => Ok(v),
        Err(fault) => match fault {
            SuperFault::NoMemory => Err(MemberFault::NoMemory),
            _ => Err(MemberFault::Super(fault)),
        },
    }
}

// Fills `buf` with the bytes from `sector` on, by one read.
#[tactic(auto, using(md_device::proofs::Failing::fails_none, md_device::proofs::Failing::fails_then, md_device::proofs::Failing::fails_call))]
pub(crate) fn read_sectors<D: Device>(
    device: &mut D,
    sector: u64,
    buf: &mut [u8],
) -> Result<(), MemberFault>
    requires whole { length buf.old % 512 ≡ 0 }
    requires within { 512 * sector + length buf.old ≤ length (D.content device.old) }
    ensures kept { D.content device.new ≡ D.content device.old }
    ensures honest { D.honest device.new ≡ D.honest device.old }
    ensures counted { D.failures device.old ≤ D.failures device.new }
    ensures faults { AddsItself result (failed_read sector (length buf.old)) (D.faults device.old) (D.faults device.new) }
    ensures unfailing { OnOk result (D.failures device.new ≡ D.failures device.old) }
    ensures within { D.honest device.old ≡ true → LeavesMore (D.crashes device.old) (D.crashes device.new) (λ left. left ≡ D.content device.old) }
    ensures ok { OnOk result (IsRead (D.content device.old) (D.honest device.old) sector (length buf.old) buf.new) }
    ensures failed { IfErr result (λ fault. (fault ≡ MemberFault.ReadFault) × CallFails D.Device device.old device.new (IsReadOf sector (length buf.old))) }
{
    match device.read(sector, buf) {
        Ok(()) => Ok(()),
        Err(_) => Err(MemberFault::ReadFault),
    }
}
