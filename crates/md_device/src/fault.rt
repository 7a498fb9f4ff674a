// A device that fails on demand, for tests.
ghost use Rattle.std.specs.Prelude.{◌≡◌, ◌+◌, ◌*◌, ◌%◌, ◌<◌, ◌≤◌, ◌++◌, ◌∷◌, [], length, true, false, OnOk, OnErr, IsErr, refl};
ghost use Rattle.md_device.specs.Splice.{SameOutside};
ghost use Rattle.md_device.specs.Device.{held, written};
ghost use Rattle.md_device.specs.Crashes.{LeavesMore, WithinWrite};
ghost use Rattle.md_device.specs.Failing.{AddsItself, failed_read, failed_write};
ghost use Rattle.md_device.specs.Faults.{touches_sectors, first_half, fails_read, fails_write, next_write};

use crate::device::{Device, ReadFault, WriteFault};
use crate::fault_list::{Fault, FaultList};
use std::marker::Model;

/// A device over another one that fails where it was told to, for tests. Contracts see it as the
/// device below, what it was told, two counts, and the calls that failed.
///
/// A read that touches a bad sector fails and changes nothing. So does a write whose number lies in
/// a range; where it is torn, the first half of its sectors, rounded down, is written before it
/// fails. Writes are numbered from 1, each call alike, also one that fails or has no bytes; from
/// u64::MAX on the number stays. After u64::MAX failures of its own it fails no more; the device
/// below may still fail.
#[derive(Drop)]
pub struct FaultDevice<D> {
    inner: D,
    bad: Vec<u64>,
    first: u64,
    last: u64,
    torn: bool,
    writes: u64,
    failed: u64,
    faults: FaultList,
}

impl<D> Model for FaultDevice<D> {
    ghost use Rattle.md_device.specs.Faults.{Faulty, faulty_code};

    ghost Value = { Faulty D };

    ghost coded = { faulty_code D.code };

    ghost view = { λ d. record { inner = d.inner; bad = d.bad.items; first = d.first; last = d.last; torn = d.torn; writes = d.writes; failed = d.failed; faults = d.faults.list } };
}

impl<D> FaultDevice<D> {
    /// A device whose reads fail at the sectors of `bad`, and whose writes fail from the one
    /// numbered `first` to the one numbered `last`. Takes no memory.
    pub fn new(inner: D, bad: Vec<u64>, first: u64, last: u64, torn: bool) -> FaultDevice<D>
        ensures { result ≡ record { inner = inner; bad = bad.items; first = first; last = last; torn = torn; writes = 0; failed = 0; faults = [] } }
    {
        FaultDevice {
            inner,
            bad,
            first,
            last,
            torn,
            writes: 0,
            failed: 0,
            faults: FaultList::empty(),
        }
    }

    /// The device below. Takes no memory.
    pub fn into_inner(self) -> D
        ensures { result ≡ self.inner }
    {
        self.inner
    }
}

impl<D: Device> Device for FaultDevice<D> {
    ghost content = { λ d. D.content d.inner };

    ghost honest = { λ d. D.honest d.inner };

    ghost faults = { λ d. d.faults };

    ghost failures = { λ d. length d.faults };

    ghost counts = { λ _. refl };

    ghost crashes = { λ d. D.crashes d.inner };

    fn sectors(&self) -> u64 {
        self.inner.sectors()
    }

    fn read(&mut self, sector: u64, buf: &mut [u8]) -> Result<(), ReadFault>
        requires whole { length buf.old % 512 ≡ 0 }
        requires within { 512 * sector + length buf.old ≤ length (D.content self.old.inner) }

        ensures kept { D.content self.new.inner ≡ D.content self.old.inner }
        ensures honest { D.honest self.new.inner ≡ D.honest self.old.inner }
        ensures ok { OnOk result (D.honest self.old.inner ≡ true → buf.new ≡ held (D.content self.old.inner) sector (length buf.old)) }
        ensures err { OnErr result (D.honest self.old.inner ≡ true → length self.old.faults < length self.new.faults) }
        ensures counted { length self.old.faults ≤ length self.new.faults }
        ensures unfailing { OnOk result (length self.new.faults ≡ length self.old.faults) }
        ensures faults { AddsItself result (failed_read sector (length buf.old)) self.old.faults self.new.faults }
        ensures within { D.honest self.old.inner ≡ true → LeavesMore (D.crashes self.old.inner) (D.crashes self.new.inner) (λ left. left ≡ D.content self.old.inner) }

        // A read that is made to fail changes what is counted and noted alone; no other fails but by the device below.
        ensures bad { fails_read self.old sector (length buf.old) ≡ true → IsErr result × (buf.new ≡ buf.old) × (self.new ≡ record self.old { failed = self.old.failed + 1; faults = self.old.faults ++ failed_read sector (length buf.old) ∷ [] }) }
        ensures good { fails_read self.old sector (length buf.old) ≡ false → self.new ≡ record self.old { inner = self.new.inner; faults = self.new.faults } }
        ensures below { fails_read self.old sector (length buf.old) ≡ false → AddsItself result (failed_read sector (length buf.old)) (D.faults self.old.inner) (D.faults self.new.inner) }
    {
        if self.failed < u64::MAX && is_bad(self.bad.as_slice(), sector, buf.len()) {
            self.failed += 1;
            self.faults = self.faults.with_fault(&Fault::read(sector, buf.len()));
            return Err(ReadFault);
        }
        let outcome = self.inner.read(sector, buf);
        if outcome.is_err() {
            self.faults = self.faults.with_fault(&Fault::read(sector, buf.len()));
        }
        outcome
    }

    #[tactic(auto, using(crate::proofs::Leaving::leaves_none))]
    fn write(&mut self, sector: u64, bytes: &[u8]) -> Result<(), WriteFault>
        requires whole { length bytes.now % 512 ≡ 0 }
        requires within { 512 * sector + length bytes.now ≤ length (D.content self.old.inner) }

        ensures outside { SameOutside (512 * sector) (length bytes.now) (D.content self.old.inner) (D.content self.new.inner) }
        ensures honest { D.honest self.new.inner ≡ D.honest self.old.inner }
        ensures ok { OnOk result (D.honest self.old.inner ≡ true → D.content self.new.inner ≡ written (D.content self.old.inner) sector bytes.now) }
        ensures err { OnErr result (D.honest self.old.inner ≡ true → length self.old.faults < length self.new.faults) }
        ensures counted { length self.old.faults ≤ length self.new.faults }
        ensures unfailing { OnOk result (length self.new.faults ≡ length self.old.faults) }
        ensures faults { AddsItself result (failed_write sector (length bytes.now)) self.old.faults self.new.faults }
        ensures within { D.honest self.old.inner ≡ true → LeavesMore (D.crashes self.old.inner) (D.crashes self.new.inner) (WithinWrite result sector bytes.now (D.content self.old.inner)) }

        // A write that is made to fail is counted; no other fails but by the device below.
        ensures bad { fails_write self.old ≡ true → IsErr result × (self.new ≡ record self.old { inner = self.new.inner; writes = next_write self.old; failed = self.old.failed + 1; faults = self.old.faults ++ failed_write sector (length bytes.now) ∷ [] }) }
        ensures good { fails_write self.old ≡ false → self.new ≡ record self.old { inner = self.new.inner; writes = next_write self.old; faults = self.new.faults } }
        ensures below { fails_write self.old ≡ false → AddsItself result (failed_write sector (length bytes.now)) (D.faults self.old.inner) (D.faults self.new.inner) }

        // What it leaves: nothing new, or, where it is torn, its first half or a part of that.
        ensures untorn { fails_write self.old ≡ true → self.old.torn ≡ false → self.new.inner ≡ self.old.inner }
        ensures torn_outside { fails_write self.old ≡ true → SameOutside (512 * sector) (length (first_half bytes.now)) (D.content self.old.inner) (D.content self.new.inner) }
        ensures torn { fails_write self.old ≡ true → self.old.torn ≡ true → D.honest self.old.inner ≡ true → D.failures self.new.inner ≡ D.failures self.old.inner → D.content self.new.inner ≡ written (D.content self.old.inner) sector (first_half bytes.now) }
    {
        self.writes = self.writes.saturating_add(1);
        if self.failed < u64::MAX && (self.first..=self.last).contains(&self.writes) {
            self.failed += 1;
            self.faults = self.faults.with_fault(&Fault::write(sector, bytes.len()));
            if self.torn {
                write_half(&mut self.inner, sector, bytes);
            }
            return Err(WriteFault);
        }
        let outcome = self.inner.write(sector, bytes);
        if outcome.is_err() {
            self.faults = self.faults.with_fault(&Fault::write(sector, bytes.len()));
        }
        outcome
    }
}

// Whether a read of so many bytes touches a bad sector.
fn is_bad(bad: &[u64], sector: u64, len: usize) -> bool
    ensures { result ≡ touches_sectors bad.now sector len }
{
    let count = len as u64 / 512;
    bad.iter()
        .any(|bad| sector <= *bad && *bad - sector < count)
}

// Writes the first half of the sectors, rounded down, as far as the device takes it.
#[tactic(auto, using(crate::proofs::Splices::outsides))]
fn write_half<D: Device>(device: &mut D, sector: u64, bytes: &[u8])
    requires whole { length bytes.now % 512 ≡ 0 }
    requires within { 512 * sector + length bytes.now ≤ length (D.content device.old) }

    ensures outside { SameOutside (512 * sector) (length bytes.now) (D.content device.old) (D.content device.new) }
    ensures half_outside { SameOutside (512 * sector) (length (first_half bytes.now)) (D.content device.old) (D.content device.new) }
    ensures honest { D.honest device.new ≡ D.honest device.old }
    ensures counted { D.failures device.old ≤ D.failures device.new }
    ensures within { D.honest device.old ≡ true → LeavesMore (D.crashes device.old) (D.crashes device.new) (SameOutside (512 * sector) (length bytes.now) (D.content device.old)) }
    ensures half { D.honest device.old ≡ true → D.failures device.new ≡ D.failures device.old → D.content device.new ≡ written (D.content device.old) sector (first_half bytes.now) }
{
    let half = bytes.len() / 1024 * 512;
    let _ = device.write(sector, &bytes[..half]);
}
