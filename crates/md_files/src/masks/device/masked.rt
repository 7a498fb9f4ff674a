// A disk as its copy has it.
ghost use Rattle.std.specs.Prelude.{◌≡◌, ◌+◌, ◌*◌, ◌%◌, ◌<◌, ◌≤◌, ◌⊎◌, ◌++◌, ◌∷◌, ℕ, List, [], length, true, OnOk, OnErr, IsErr, refl};
ghost use Rattle.md_device.specs.Splice.{SameOutside};
ghost use Rattle.md_device.specs.Device.{held, written};
ghost use Rattle.md_device.specs.Failing.{AddsItself, failed_read, failed_write};
ghost use Rattle.md_badblocks.specs.Runs.{IsBad};
ghost use Rattle.md_images.specs.Places.{MeetsSector};
ghost use Rattle.md_files.specs.Masks.Device.Masked.{Touches, IsUnmasked, disk_content};

use crate::masks::device::hidden::Hidden;
use md_badblocks::BadSet;
use md_device::{Device, Fault, FaultList, ReadFault, WriteFault};
use md_images::SharedRead;
use std::marker::Model;

/// A disk as its copy has it: a device over the copy that does not give the sectors of a mask, which the disk did not give.
/// Its content is that of the disk, with any bytes in these sectors. Contracts see it as the copy, the mask as its maximal
/// runs, the disk's bytes, and which calls failed.
///
/// A read that touches a masked sector fails, and the copy is not used. A write goes through, and what it wrote is masked no
/// more. Where it fails the mask stays as it was.
///
/// It takes memory only to write to the midst of a run, which then becomes two. Where there is none the write fails, though the
/// copy has the bytes: the mask stays, so that no read gives them.
#[derive(Drop)]
pub struct MaskedDevice<D> {
    inner: D,
    mask: BadSet,
    disk: Hidden,
    faults: FaultList,
}

impl<D> Model for MaskedDevice<D> {
    ghost use Rattle.md_badblocks.specs.Runs.{IsBad};
    ghost use Rattle.md_images.specs.Places.{MeetsSector};
    ghost use Rattle.md_files.specs.Masks.Device.Masked.{Masked, masked_code};

    ghost Value = { Masked D };

    ghost coded = { masked_code D.code };

    ghost view = { λ d. record { inner = d.inner; mask = d.mask; disk = d.disk.bytes; faults = d.faults.list } };
}

impl<D> MaskedDevice<D> {
    /// A device that does not give the sectors of `mask`, where the disk has any bytes. Takes no memory.
    pub fn new(inner: D, mask: BadSet) -> MaskedDevice<D>
        ghost disk: { List ℕ }
        ensures { result ≡ record { inner = inner; mask = mask; disk = disk; faults = [] } }
    {
        MaskedDevice {
            inner,
            mask,
            disk: Hidden::any(),
            faults: FaultList::empty(),
        }
    }

    /// Moves the mask over another device. Answers that, and the copy that was below it. Takes no memory.
    pub fn moved_over<E>(self, inner: E) -> (MaskedDevice<E>, D)
        ensures moved { result.0 ≡ record { inner = inner; mask = self.mask; disk = self.disk; faults = self.faults } }
        ensures copy { result.1 ≡ self.inner }
    {
        let MaskedDevice {
            inner: copy,
            mask,
            disk,
            faults,
        } = self;
        let moved = MaskedDevice {
            inner,
            mask,
            disk,
            faults,
        };
        (moved, copy)
    }
}

#[tactic(auto, using(crate::proofs::MaskLemmas::DeviceLemmas::Disks::disks, md_device::proofs::Leaving::leaves_none))]
impl<D: Device> Device for MaskedDevice<D> {
    ghost content = { λ d. disk_content d.mask d.disk (D.content d.inner) };

    ghost honest = { λ d. D.honest d.inner };

    ghost faults = { λ d. d.faults };

    ghost failures = { λ d. length d.faults };

    ghost counts = { λ _. refl };

    // The mask goes with the device, so nothing is promised of a crash.
    ghost crashes = { λ _. [] };

    fn sectors(&self) -> u64 {
        self.inner.sectors()
    }

    fn read(&mut self, sector: u64, buf: &mut [u8]) -> Result<(), ReadFault>
        requires whole { length buf.old % 512 ≡ 0 }
        requires within { 512 * sector + length buf.old ≤ length (disk_content self.old.mask self.old.disk (D.content self.old.inner)) }

        ensures kept { D.content self.new.inner ≡ D.content self.old.inner }
        ensures honest { D.honest self.new.inner ≡ D.honest self.old.inner }
        ensures ok { OnOk result (D.honest self.old.inner ≡ true → buf.new ≡ held (disk_content self.old.mask self.old.disk (D.content self.old.inner)) sector (length buf.old)) }
        ensures err { OnErr result (D.honest self.old.inner ≡ true → length self.old.faults < length self.new.faults) }
        ensures counted { length self.old.faults ≤ length self.new.faults }
        ensures unfailing { OnOk result (length self.new.faults ≡ length self.old.faults) }
        ensures faults { AddsItself result (failed_read sector (length buf.old)) self.old.faults self.new.faults }

        // A masked sector is never read, and no other read fails but by the copy.
        ensures masked { Touches self.old.mask sector (length buf.old) → IsErr result × (buf.new ≡ buf.old) × (self.new ≡ record self.old { faults = self.old.faults ++ failed_read sector (length buf.old) ∷ [] }) }
        ensures given { ¬ Touches self.old.mask sector (length buf.old) → self.new ≡ record self.old { inner = self.new.inner; faults = self.new.faults } }
        ensures below_faults { ¬ Touches self.old.mask sector (length buf.old) → AddsItself result (failed_read sector (length buf.old)) (D.faults self.old.inner) (D.faults self.new.inner) }
        ensures mask { self.new.mask ≡ self.old.mask }
        ensures disk { self.new.disk ≡ self.old.disk }
    {
        if self.mask.meets(sector, buf.len() as u64 / 512) {
            self.faults = self.faults.with_fault(&Fault::read(sector, buf.len()));
            return Err(ReadFault);
        }
        let outcome = self.inner.read(sector, buf);
        if outcome.is_err() {
            self.faults = self.faults.with_fault(&Fault::read(sector, buf.len()));
        }
        outcome
    }

    fn write(&mut self, sector: u64, bytes: &[u8]) -> Result<(), WriteFault>
        requires whole { length bytes.now % 512 ≡ 0 }
        requires within { 512 * sector + length bytes.now ≤ length (disk_content self.old.mask self.old.disk (D.content self.old.inner)) }

        ensures outside { SameOutside (512 * sector) (length bytes.now) (disk_content self.old.mask self.old.disk (D.content self.old.inner)) (disk_content self.new.mask self.new.disk (D.content self.new.inner)) }
        ensures honest { D.honest self.new.inner ≡ D.honest self.old.inner }
        ensures ok { OnOk result (D.honest self.old.inner ≡ true → disk_content self.new.mask self.new.disk (D.content self.new.inner) ≡ written (disk_content self.old.mask self.old.disk (D.content self.old.inner)) sector bytes.now) }
        ensures err { OnErr result (D.honest self.old.inner ≡ true → length self.old.faults < length self.new.faults) }
        ensures counted { length self.old.faults ≤ length self.new.faults }
        ensures unfailing { OnOk result (length self.new.faults ≡ length self.old.faults) }
        ensures faults { AddsItself result (failed_write sector (length bytes.now)) self.old.faults self.new.faults }

        // What was written is masked no more. Where the write fails the mask stays.
        ensures unmasked { OnOk result (IsUnmasked sector (length bytes.now) self.old.mask self.new.mask) }
        ensures err_mask { OnErr result (self.new.mask ≡ self.old.mask) }
        ensures disk { self.new.disk ≡ self.old.disk }

        // The copy gets it, wherever it is masked.
        ensures below { SameOutside (512 * sector) (length bytes.now) (D.content self.old.inner) (D.content self.new.inner) }
    {
        let outcome = self.write_through(sector, bytes);
        if outcome.is_err() {
            self.faults = self.faults.with_fault(&Fault::write(sector, bytes.len()));
        }
        outcome
    }
}

#[tactic(auto, using(crate::proofs::MaskLemmas::DeviceLemmas::Disks::disks, md_device::proofs::Leaving::leaves_none))]
impl<D: Device> MaskedDevice<D> {
    // Writes to the copy, and takes what was written from the mask.
    fn write_through(&mut self, sector: u64, bytes: &[u8]) -> Result<(), WriteFault>
        requires whole { length bytes.now % 512 ≡ 0 }
        requires within { 512 * sector + length bytes.now ≤ length (disk_content self.old.mask self.old.disk (D.content self.old.inner)) }

        ensures outside { SameOutside (512 * sector) (length bytes.now) (disk_content self.old.mask self.old.disk (D.content self.old.inner)) (disk_content self.new.mask self.new.disk (D.content self.new.inner)) }
        ensures honest { D.honest self.new.inner ≡ D.honest self.old.inner }
        ensures ok { OnOk result (D.honest self.old.inner ≡ true → disk_content self.new.mask self.new.disk (D.content self.new.inner) ≡ written (disk_content self.old.mask self.old.disk (D.content self.old.inner)) sector bytes.now) }

        // What was written is masked no more. Where the write fails the mask stays.
        ensures unmasked { OnOk result (IsUnmasked sector (length bytes.now) self.old.mask self.new.mask) }
        ensures err_mask { OnErr result (self.new.mask ≡ self.old.mask) }
        ensures disk { self.new.disk ≡ self.old.disk }

        // The copy gets it, wherever it is masked.
        ensures below { SameOutside (512 * sector) (length bytes.now) (D.content self.old.inner) (D.content self.new.inner) }
        ensures unnoted { self.new.faults ≡ self.old.faults }
    {
        self.inner.write(sector, bytes)?;
        if self.mask.remove(sector, bytes.len() as u64 / 512).is_err() {
            return Err(WriteFault);
        }
        Ok(())
    }
}

#[tactic(auto, using(crate::proofs::MaskLemmas::DeviceLemmas::Disks::disks))]
impl<D: SharedRead> SharedRead for MaskedDevice<D> {
    ghost may_fail = { λ d s. IsBad d.mask s ⊎ D.may_fail d.inner s };

    fn read_shared(&self, sector: u64, buf: &mut [u8]) -> Result<(), ReadFault>
        requires whole { length buf.old % 512 ≡ 0 }
        requires within { 512 * sector + length buf.old ≤ length (disk_content self.now.mask self.now.disk (D.content self.now.inner)) }
        ensures ok { OnOk result (D.honest self.now.inner ≡ true → buf.new ≡ held (disk_content self.now.mask self.now.disk (D.content self.now.inner)) sector (length buf.old)) }
        ensures err { OnErr result (MeetsSector (λ s. IsBad self.now.mask s ⊎ D.may_fail self.now.inner s) sector (length buf.old)) }

        // A masked sector is never read.
        ensures masked { Touches self.now.mask sector (length buf.old) → IsErr result × (buf.new ≡ buf.old) }
    {
        let sectors = buf.len() as u64 / 512;
        if self.mask.meets(sector, sectors) {
            return Err(ReadFault);
        }
        self.inner.read_shared(sector, buf)
    }
}
