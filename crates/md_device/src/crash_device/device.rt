// A device that crashes with others, for tests.
ghost use Rattle.std.specs.Prelude.{◌≡◌, ◌+◌, ◌*◌, ◌%◌, ◌<◌, ◌≤◌, [], length, true, OnOk, OnErr, refl};
ghost use Rattle.md_device.specs.Splice.{SameOutside};
ghost use Rattle.md_device.specs.Device.{held, written};
ghost use Rattle.md_device.specs.Crashes.{LeavesMore, WithinWrite};
ghost use Rattle.md_device.specs.CrashDevice.Crashing.{CrashingView};

use crate::crash_device::count::{Fuse, Passage};
use crate::device::{Device, ReadFault, WriteFault};
use crate::fault_list::{Fault, FaultList};
use std::marker::Model;

/// A device over another one that crashes when its fuse has let so many writes pass, of all devices that share it. Contracts
/// see it as the device below, from which sector on a write is torn, a count, and the calls that failed.
///
/// The next write fails. Where it begins at sector `torn_from` or later, the first half of its sectors, rounded down, is
/// written before; else it changes nothing. Every later write fails and changes nothing. Reads go on. After u64::MAX failures
/// of its own it fails no more; the device below may still fail.
#[derive(Drop)]
pub struct CrashDevice<D> {
    inner: D,
    fuse: Fuse,
    torn_from: u64,
    failed: u64,
    faults: FaultList,
}

impl<D> Model for CrashDevice<D> {
    ghost use Rattle.md_device.specs.CrashDevice.Crashing.{CrashingView, crashing_code};

    ghost Value = { CrashingView D };

    ghost coded = { crashing_code D.code };

    ghost view = { λ d. record { inner = d.inner; torn_from = d.torn_from; failed = d.failed; faults = d.faults.list } };
}

impl<D> CrashDevice<D> {
    /// A device whose writes this fuse counts. Takes no memory.
    pub fn new(inner: D, fuse: Fuse, torn_from: u64) -> CrashDevice<D>
        ensures { result ≡ record { inner = inner; torn_from = torn_from; failed = 0; faults = [] } }
    {
        CrashDevice {
            inner,
            fuse,
            torn_from,
            failed: 0,
            faults: FaultList::empty(),
        }
    }

    /// The device below. Takes no memory.
    pub fn into_inner(self) -> D
        ensures { result ≡ self.inner }
    {
        self.inner
    }
}

impl<D: Device> Device for CrashDevice<D> {
    ghost content = { λ d. D.content d.inner };

    ghost honest = { λ d. D.honest d.inner };

    ghost faults = { λ d. d.faults };

    ghost failures = { λ d. length d.faults };

    ghost counts = { λ _. refl };

    ghost crashes = { λ d. D.crashes d.inner };

    fn sectors(&self) -> u64 {
        self.inner.sectors()
    }

    fn read(&mut self, sector: u64, buf: &mut [u8]) -> Result<(), ReadFault> {
        let outcome = self.inner.read(sector, buf);
        if outcome.is_err() {
            self.faults = self.faults.with_fault(&Fault::read(sector, buf.len()));
        }
        outcome
    }

    #[tactic(auto, using(crate::proofs::Leaving::leaves_none))]
    fn write(&mut self, sector: u64, bytes: &[u8]) -> Result<(), WriteFault> {
        let passage = self.fuse.pass();
        if self.failed == u64::MAX || matches!(passage, Passage::Passes) {
            let outcome = self.inner.write(sector, bytes);
            if outcome.is_err() {
                self.faults = self.faults.with_fault(&Fault::write(sector, bytes.len()));
            }
            return outcome;
        }
        self.failed += 1;
        self.faults = self.faults.with_fault(&Fault::write(sector, bytes.len()));
        if sector >= self.torn_from && matches!(passage, Passage::Crashes) {
            write_half(&mut self.inner, sector, bytes);
        }
        Err(WriteFault)
    }
}

// Writes the first half of the sectors, rounded down, as far as the device takes it.
#[tactic(auto, using(crate::proofs::Splices::outsides))]
fn write_half<D: Device>(device: &mut D, sector: u64, bytes: &[u8])
    requires whole { length bytes.now % 512 ≡ 0 }
    requires within { 512 * sector + length bytes.now ≤ length (D.content device.old) }

    ensures outside { SameOutside (512 * sector) (length bytes.now) (D.content device.old) (D.content device.new) }
    ensures honest { D.honest device.new ≡ D.honest device.old }
    ensures counted { D.failures device.old ≤ D.failures device.new }
    ensures within { D.honest device.old ≡ true → LeavesMore (D.crashes device.old) (D.crashes device.new) (SameOutside (512 * sector) (length bytes.now) (D.content device.old)) }
{
    let half = bytes.len() / 1024 * 512;
    let _ = device.write(sector, &bytes[..half]);
}
