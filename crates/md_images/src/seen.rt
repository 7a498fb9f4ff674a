// A device that is only looked at.
ghost use Rattle.std.specs.Prelude.{◌≡◌, ◌+◌, ◌*◌, ◌%◌, ◌<◌, ◌≤◌, [], length, refl, true, OnErr, OnOk};
ghost use Rattle.md_device.specs.Crashes.{LeavesMore};
ghost use Rattle.md_device.specs.Device.{held};
ghost use Rattle.md_device.specs.Failing.{AddsItself, failed_read};
ghost use Rattle.md_images.specs.Places.{MeetsSector};

use crate::shared_read::SharedRead;
use md_device::{Device, Fault, FaultList, ReadFault, WriteFault};
use std::marker::Model;

/// A device that is only looked at, as a device that refuses every write of it. Contracts see the device, and which calls
/// have failed through this view of it.
#[derive(Drop)]
pub struct Seen<'a, D: SharedRead> {
    device: &'a D,
    faults: FaultList,
}

impl<'a, D: SharedRead> Model for Seen<'a, D> {
    ghost use Rattle.md_images.specs.Seen.{View, view_code};

    ghost Value = { View D };

    ghost coded = { view_code D.code };

    ghost view = { λ s. record { device = s.device.now; faults = s.faults.list } };
}

impl<'a, D: SharedRead> Seen<'a, D> {
    /// A view of a device, through which no call has failed. Takes no memory.
    pub fn new(device: &'a D) -> Seen<'a, D>
        ensures { result ≡ record { device = device.now; faults = [] } }
    {
        Seen {
            device,
            faults: FaultList::empty(),
        }
    }
}

impl<'a, D: SharedRead> Device for Seen<'a, D> {
    ghost content = { λ s. D.content s.device };

    ghost honest = { λ s. D.honest s.device };

    ghost faults = { λ s. s.faults };

    ghost failures = { λ s. length s.faults };

    ghost counts = { λ _. refl };

    // What is only looked at is left as it is, so nothing more is promised of a crash.
    ghost crashes = { λ _. [] };

    fn sectors(&self) -> u64 {
        self.device.sectors()
    }

    fn read(&mut self, sector: u64, buf: &mut [u8]) -> Result<(), ReadFault>
        requires whole { length buf.old % 512 ≡ 0 }
        requires within { 512 * sector + length buf.old ≤ length (D.content self.old.device) }
        ensures device { self.new.device ≡ self.old.device }
        ensures ok { OnOk result (D.honest self.old.device ≡ true → buf.new ≡ held (D.content self.old.device) sector (length buf.old)) }
        ensures err { OnErr result (D.honest self.old.device ≡ true → length self.old.faults < length self.new.faults) }
        ensures counted { length self.old.faults ≤ length self.new.faults }
        ensures unfailing { OnOk result (length self.new.faults ≡ length self.old.faults) }
        ensures faults { AddsItself result (failed_read sector (length buf.old)) self.old.faults self.new.faults }
        ensures within { D.honest self.old.device ≡ true → LeavesMore [] [] (λ left. left ≡ D.content self.old.device) }

        // It fails only where the device may, in one of these sectors.
        ensures below { OnErr result (MeetsSector (D.may_fail self.old.device) sector (length buf.old)) }
    {
        if self.device.read_shared(sector, buf).is_err() {
            self.faults = self.faults.with_fault(&Fault::read(sector, buf.len()));
            return Err(ReadFault);
        }
        Ok(())
    }

    fn write(&mut self, sector: u64, bytes: &[u8]) -> Result<(), WriteFault> {
        self.faults = self.faults.with_fault(&Fault::write(sector, bytes.len()));
        Err(WriteFault)
    }
}
