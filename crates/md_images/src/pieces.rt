// Long reads, piece by piece.
ghost use Rattle.std.specs.Prelude.{◌≡◌, ◌+◌, ◌*◌, ◌%◌, ◌≤◌, length, true, MatchResult, OnErr, OnOk};
ghost use Rattle.md_device.specs.Crashes.{LeavesMore};
ghost use Rattle.md_device.specs.Device.{held};
ghost use Rattle.md_device.specs.Failing.{IsReadWithin};
ghost use Rattle.md_images.specs.Places.{AddsOneFault, MeetsSector};

use crate::shared_read::SharedRead;
use crate::traffic::Traffic;
use md_device::{Device, ReadFault};

// As much is read at once, so that it is told within a long read how far that is.
const PIECE: usize = 16 << 20;

/// Reads piece by piece, and tells of each. An empty read is none.
pub(crate) fn read_pieces<D: Device, T: Traffic>(
    device: &mut D,
    sector: u64,
    buf: &mut [u8],
    traffic: &T,
) -> Result<(), ReadFault>
    requires whole { length buf.old % 512 ≡ 0 }
    requires within { 512 * sector + length buf.old ≤ length (D.content device.old) }
    ensures kept { D.content device.new ≡ D.content device.old }
    ensures honest { D.honest device.new ≡ D.honest device.old }
    ensures ok { OnOk result (D.honest device.old ≡ true → buf.new ≡ held (D.content device.old) sector (length buf.old)) }
    ensures faults { MatchResult result (λ _. D.faults device.new ≡ D.faults device.old) (λ _. AddsOneFault (IsReadWithin sector (length buf.old)) (D.faults device.old) (D.faults device.new)) }
    ensures within { D.honest device.old ≡ true → LeavesMore (D.crashes device.old) (D.crashes device.new) (λ left. left ≡ D.content device.old) }
{
    let sectors = device.sectors();
    let mut done = 0;
    while done < buf.len() {
        let len = PIECE.min(buf.len() - done);
        let from = sector + done as u64 / 512;
        prove!(from <= sectors);
        device.read(from, &mut buf[done..done + len])?;
        traffic.add_read(len);
        done += len;
    }
    Ok(())
}

/// Reads piece by piece while the device is shared, and tells of each. An empty read is none.
pub(crate) fn read_shared_pieces<D: SharedRead, T: Traffic>(
    device: &D,
    sector: u64,
    buf: &mut [u8],
    traffic: &T,
) -> Result<(), ReadFault>
    requires whole { length buf.old % 512 ≡ 0 }
    requires within { 512 * sector + length buf.old ≤ length (D.content device.now) }
    ensures ok { OnOk result (D.honest device.now ≡ true → buf.new ≡ held (D.content device.now) sector (length buf.old)) }
    ensures err { OnErr result (MeetsSector (D.may_fail device.now) sector (length buf.old)) }
{
    let sectors = device.sectors();
    let mut done = 0;
    while done < buf.len() {
        let len = PIECE.min(buf.len() - done);
        let from = sector + done as u64 / 512;
        prove!(from <= sectors);
        device.read_shared(from, &mut buf[done..done + len])?;
        traffic.add_read(len);
        done += len;
    }
    Ok(())
}
