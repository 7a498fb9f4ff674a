// A device whose reads and writes are watched.
ghost use Rattle.std.specs.Prelude.{◌≡◌, ◌+◌, ◌*◌, ◌%◌, ◌<◌, ◌≤◌, [], length, refl, true, MatchResult, OnErr, OnOk};
ghost use Rattle.md_device.specs.Crashes.{LeavesMore, WithinWrite};
ghost use Rattle.md_device.specs.Device.{held, written};
ghost use Rattle.md_device.specs.Failing.{AddsItself, IsReadWithin, failed_read, failed_write};
ghost use Rattle.md_device.specs.Splice.{SameOutside};
ghost use Rattle.md_images.specs.Places.{AddsOneFault, MeetsSector};

use crate::pieces::{read_pieces, read_shared_pieces};
use crate::shared_read::SharedRead;
use crate::traffic::Traffic;
use md_device::{Device, Fault, FaultList, ReadFault, WriteFault};

/// A device that tells how much is read of the one below and written to it, within a long read too. In all else it is that
/// one: its content, what it answers, and where it fails.
#[derive(Drop)]
pub struct Watched<'a, D, T> {
    device: D,
    traffic: &'a T,
    faults: FaultList,
}

impl<'a, D, T> Watched<'a, D, T> {
    /// No call of it has failed yet. Takes no memory.
    pub fn new(device: D, traffic: &'a T) -> Watched<'a, D, T>
        ensures device { result.device ≡ device }
        ensures faults { result.faults.list ≡ [] }
    {
        Watched {
            device,
            traffic,
            faults: FaultList::empty(),
        }
    }

    /// The device below.
    pub fn device(&self) -> &D
        ensures { result.now ≡ self.now.device }
    {
        &self.device
    }
}

impl<'a, D: Device, T: Traffic> Device for Watched<'a, D, T> {
    ghost content = { λ d. D.content d.device };

    ghost honest = { λ d. D.honest d.device };

    ghost faults = { λ d. d.faults.list };

    ghost failures = { λ d. length d.faults.list };

    ghost counts = { λ _. refl };

    ghost crashes = { λ d. D.crashes d.device };

    fn sectors(&self) -> u64 {
        self.device.sectors()
    }

    fn read(&mut self, sector: u64, buf: &mut [u8]) -> Result<(), ReadFault>
        requires whole { length buf.old % 512 ≡ 0 }
        requires within { 512 * sector + length buf.old ≤ length (D.content self.old.device) }

        ensures kept { D.content self.new.device ≡ D.content self.old.device }
        ensures honest { D.honest self.new.device ≡ D.honest self.old.device }
        ensures ok { OnOk result (D.honest self.old.device ≡ true → buf.new ≡ held (D.content self.old.device) sector (length buf.old)) }
        ensures err { OnErr result (D.honest self.old.device ≡ true → length self.old.faults.list < length self.new.faults.list) }
        ensures counted { length self.old.faults.list ≤ length self.new.faults.list }
        ensures unfailing { OnOk result (length self.new.faults.list ≡ length self.old.faults.list) }
        ensures faults { AddsItself result (failed_read sector (length buf.old)) self.old.faults.list self.new.faults.list }
        ensures within { D.honest self.old.device ≡ true → LeavesMore (D.crashes self.old.device) (D.crashes self.new.device) (λ left. left ≡ D.content self.old.device) }

        // It fails only by a read of the device below, of nothing but some of these bytes.
        ensures below { MatchResult result (λ _. D.faults self.new.device ≡ D.faults self.old.device) (λ _. AddsOneFault (IsReadWithin sector (length buf.old)) (D.faults self.old.device) (D.faults self.new.device)) }
    {
        let outcome = read_pieces(&mut self.device, sector, buf, self.traffic);
        if outcome.is_err() {
            self.traffic.add_failed_read();
            self.faults = self.faults.with_fault(&Fault::read(sector, buf.len()));
        }
        outcome
    }

    fn write(&mut self, sector: u64, bytes: &[u8]) -> Result<(), WriteFault>
        requires whole { length bytes.now % 512 ≡ 0 }
        requires within { 512 * sector + length bytes.now ≤ length (D.content self.old.device) }

        ensures outside { SameOutside (512 * sector) (length bytes.now) (D.content self.old.device) (D.content self.new.device) }
        ensures honest { D.honest self.new.device ≡ D.honest self.old.device }
        ensures ok { OnOk result (D.honest self.old.device ≡ true → D.content self.new.device ≡ written (D.content self.old.device) sector bytes.now) }
        ensures err { OnErr result (D.honest self.old.device ≡ true → length self.old.faults.list < length self.new.faults.list) }
        ensures counted { length self.old.faults.list ≤ length self.new.faults.list }
        ensures unfailing { OnOk result (length self.new.faults.list ≡ length self.old.faults.list) }
        ensures faults { AddsItself result (failed_write sector (length bytes.now)) self.old.faults.list self.new.faults.list }
        ensures within { D.honest self.old.device ≡ true → LeavesMore (D.crashes self.old.device) (D.crashes self.new.device) (WithinWrite result sector bytes.now (D.content self.old.device)) }

        // It fails only by this write of the device below.
        ensures below { AddsItself result (failed_write sector (length bytes.now)) (D.faults self.old.device) (D.faults self.new.device) }
    {
        let outcome = self.device.write(sector, bytes);
        if outcome.is_err() {
            self.faults = self.faults.with_fault(&Fault::write(sector, bytes.len()));
        } else {
            self.traffic.add_written(bytes.len());
        }
        outcome
    }
}

impl<'a, D: SharedRead, T: Traffic> SharedRead for Watched<'a, D, T> {
    ghost may_fail = { λ d. D.may_fail d.device };

    fn read_shared(&self, sector: u64, buf: &mut [u8]) -> Result<(), ReadFault> {
        let outcome = read_shared_pieces(&self.device, sector, buf, self.traffic);
        if outcome.is_err() {
            self.traffic.add_failed_read();
        }
        outcome
    }
}
