// Whether a device bears a signature.
ghost use Rattle.std.specs.Prelude.{◌≡◌, ◌%◌, ◌≤◌, ◌^◌, IfSome};
ghost use Rattle.md_notices.specs.Signatures.Bearing.{bears_signature, has_superblock, md_10_place, md_090_place};
ghost use Rattle.md_notices.specs.Signatures.Reading.{Heeds, IsOnlySearched, TellsWhetherThere};
ghost use Rattle.md_notices.specs.declared.signatures.signature.Signature.TheVariants.{Mbr};

use crate::signatures::magic::{Magic, look_for_any, look_for_magic};
use crate::signatures::partitions::is_partition_table;
use crate::signatures::read_sector::read_sector;
use crate::signatures::signature::Signature;
use crate::signatures::table::magics;
use md_device::Device;

// The magic number of each md superblock.
const MD_MAGIC: &[u8] = b"\xfc\x4e\x2b\xa9";

// Where a superblock of version 0.90 stands on a device of so many sectors: at the last multiple of 64 KiB after which
// there are 64 KiB.
fn md_090_place(sectors: u64) -> Option<u64>
    requires { sectors ≤ 2 ^ 54 }
    ensures place { result ≡ md_090_place sectors }
    ensures whole { IfSome result (λ p. p % 512 ≡ 0) }
{
    if sectors < 128 {
        return None;
    }
    Some(512 * (sectors / 128 * 128 - 128))
}

// Where a superblock of version 1.0 stands: at the last multiple of 4 KiB after which there are 8 KiB.
fn md_10_place(sectors: u64) -> Option<u64>
    requires { sectors ≤ 2 ^ 54 }
    ensures place { result ≡ md_10_place sectors }
    ensures whole { IfSome result (λ p. p % 512 ≡ 0) }
{
    if sectors < 16 {
        return None;
    }
    Some(512 * ((sectors - 16) / 8 * 8))
}

// Whether an md superblock stands at a place of the device, where it has one.
fn look_for_superblock<D: Device>(device: &mut D, place: Option<u64>, has_failed: &mut bool) -> bool
    requires { IfSome place (λ p. p % 512 ≡ 0) }
    ensures only_read { IsOnlySearched D.Device device.old device.new }
    ensures heeds { Heeds D.Device device.old device.new has_failed.old has_failed.new }
    ensures tells { TellsWhetherThere D.Device device.old device.new
        (has_superblock (D.content device.old) place)
        result }
{
    match place {
        Some(place) => look_for_any(
            device,
            &[Magic {
                place,
                bytes: MD_MAGIC,
            }],
            has_failed,
        ),
        None => false,
    }
}

// Whether the first sector has a partition table.
fn look_for_partition_table<D: Device>(device: &mut D, has_failed: &mut bool) -> bool
    ensures only_read { IsOnlySearched D.Device device.old device.new }
    ensures heeds { Heeds D.Device device.old device.new has_failed.old has_failed.new }
    ensures tells { TellsWhetherThere D.Device device.old device.new
        (bears_signature (D.content device.old) Mbr) result }
{
    match read_sector(device, 0, has_failed) {
        Some(sector) => is_partition_table(&sector),
        None => false,
    }
}

/// Whether the device bears the signature. A sector that it has not, or that it does not give, bears none. Where a read
/// failed it is noted.
pub(crate) fn bears<D: Device>(device: &mut D, signature: Signature, has_failed: &mut bool) -> bool
    ensures only_read { IsOnlySearched D.Device device.old device.new }
    ensures heeds { Heeds D.Device device.old device.new has_failed.old has_failed.new }
    ensures tells { TellsWhetherThere D.Device device.old device.new
        (bears_signature (D.content device.old) signature) result }
{
    match signature {
        Signature::Md090 => {
            let place = md_090_place(device.sectors());
            look_for_superblock(device, place, has_failed)
        }
        Signature::Md10 => {
            let place = md_10_place(device.sectors());
            look_for_superblock(device, place, has_failed)
        }
        Signature::Mbr => look_for_partition_table(device, has_failed),
        _ => look_for_any(device, magics(signature), has_failed),
    }
}
