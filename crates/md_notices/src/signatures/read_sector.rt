// A sector of a device.
ghost use Rattle.std.specs.Prelude.{MatchOption};
ghost use Rattle.md_notices.specs.Signatures.Reading.{GivesSector, Heeds, Misses, IsOnlySearched};

use md_device::Device;

/// Reads a sector, once, where the device has it, and notes where that failed.
#[tactic(auto, using(md_device::proofs::Failing::fails_none, md_device::proofs::Failing::fails_call))]
pub(crate) fn read_sector<D: Device>(
    device: &mut D,
    sector: u64,
    has_failed: &mut bool,
) -> Option<[u8; 512]>
    ensures only_read { IsOnlySearched D.Device device.old device.new }
    ensures heeds { Heeds D.Device device.old device.new has_failed.old has_failed.new }
    ensures reads { MatchOption result (Misses D.Device device.old device.new sector)
        (GivesSector D.Device device.old device.new sector) }
{
    if sector >= device.sectors() {
        return None;
    }
    let mut bytes = [0; 512];
    match device.read(sector, &mut bytes) {
        Ok(()) => Some(bytes),
        Err(_) => {
            *has_failed = true;
            None
        }
    }
}
