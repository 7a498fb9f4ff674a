// A device that keeps in memory what is written to it, over one that stays as it is.
ghost use Rattle.std.specs.Prelude.{◌≡◌, ◌+◌, ◌*◌, ◌/◌, ◌%◌, ◌^◌, ◌<◌, ◌≤◌, ◌⊎◌, ◌++◌, ◌∷◌, ℕ, [], length, slice_index, true, Some, OnOk, OnErr, refl};
ghost use Rattle.std.specs.BTreeMap.{get};
ghost use Rattle.std.specs.Option.{option_map, unwrap_or};
ghost use Rattle.std.specs.Ordering.{nat_cmp};
ghost use Rattle.md_device.specs.Splice.{SameOutside, part};
ghost use Rattle.md_device.specs.Device.{held, written};
ghost use Rattle.md_device.specs.Crashes.{LeavesMore};
ghost use Rattle.md_device.specs.Failing.{AddsItself, failed_read, failed_write};
ghost use Rattle.md_device.specs.Overlay.{byte_over};

use crate::device::{Device, ReadFault, WriteFault};
use crate::fault_list::{Fault, FaultList};
use std::alloc::{AllocError, Global};
use std::collections::BTreeMap;
use std::marker::Model;

/// A device over another one that is only read: what is written to it is kept in memory, and read
/// again from there. Contracts see it as the device below, the bytes that reads see, and the calls that
/// have failed.
///
/// It takes memory for each sector that is written for the first time, and none to read. A write for
/// which there is no memory fails. What is written is gone with the device: a crash leaves none of it.
#[derive(Drop)]
pub struct OverlayDevice<D: Device> {
    inner: D,
    sectors: u64,
    blocks: BTreeMap<u64, [u8; 512]>,
    faults: FaultList,
}

impl<D: Device> Model for OverlayDevice<D> {
    ghost use Rattle.std.specs.Prelude.{◌≡◌, ◌*◌, ◌^◌, ◌≤◌, length};
    ghost use Rattle.md_device.specs.Overlay.{Overlay, overlay_code, laid_over};

    ghost Value = { Overlay D };

    ghost coded = { overlay_code D.code };

    ghost view = { λ d. record { inner = d.inner; content = laid_over d.blocks (D.content d.inner); faults = d.faults.list } };

    ghost invariant = { λ d. (length (D.content d.inner) ≡ 512 * d.sectors) × (d.sectors ≤ 2 ^ 54) };
}

#[tactic(auto, using(crate::proofs::LaidOver::overlays))]
impl<D: Device> OverlayDevice<D> {
    /// A device that shows what stands on the one below. Takes no memory.
    pub fn new(alloc: Global, inner: D) -> OverlayDevice<D>
        ensures { result ≡ record { inner = inner; content = D.content inner; faults = [] } }
    {
        OverlayDevice {
            sectors: inner.sectors(),
            inner,
            blocks: BTreeMap::new(alloc),
            faults: FaultList::empty(),
        }
    }

    /// The device below. Takes no memory, and gives back what the writes took.
    pub fn into_inner(self) -> D
        ensures { result ≡ self.inner }
    {
        self.inner
    }
}

#[tactic(auto, using(crate::proofs::LaidOver::overlays, crate::proofs::Leaving::leaves_none))]
impl<D: Device> Device for OverlayDevice<D> {
    ghost content = { λ d. d.content };

    ghost honest = { λ d. D.honest d.inner };

    ghost faults = { λ d. d.faults };

    ghost failures = { λ d. length d.faults };

    ghost counts = { λ _. refl };

    // What is in memory is not left by a crash, so nothing is promised of one.
    ghost crashes = { λ _. [] };

    fn sectors(&self) -> u64 {
        self.sectors
    }

    fn read(&mut self, sector: u64, buf: &mut [u8]) -> Result<(), ReadFault>
        requires whole { length buf.old % 512 ≡ 0 }
        requires within { 512 * sector + length buf.old ≤ length self.old.content }

        ensures kept { self.new.content ≡ self.old.content }
        ensures honest { D.honest self.new.inner ≡ D.honest self.old.inner }
        ensures ok { OnOk result (D.honest self.old.inner ≡ true → buf.new ≡ held self.old.content sector (length buf.old)) }
        ensures err { OnErr result (self.new.faults ≡ self.old.faults ++ failed_read sector (length buf.old) ∷ []) }
        ensures unfailing { OnOk result (self.new.faults ≡ self.old.faults) }

        // The device below is read, and a crash leaves what stood on it. No read fails but by that device.
        ensures below { D.content self.new.inner ≡ D.content self.old.inner }
        ensures below_faults { AddsItself result (failed_read sector (length buf.old)) (D.faults self.old.inner) (D.faults self.new.inner) }
        ensures below_within { D.honest self.old.inner ≡ true → LeavesMore (D.crashes self.old.inner) (D.crashes self.new.inner) (λ left. left ≡ D.content self.old.inner) }
    {
        if self.inner.read(sector, buf).is_err() {
            self.faults = self.faults.with_fault(&Fault::read(sector, buf.len()));
            return Err(ReadFault);
        }
        lay_over(&self.blocks, sector, buf);
        Ok(())
    }

    fn write(&mut self, sector: u64, bytes: &[u8]) -> Result<(), WriteFault>
        requires whole { length bytes.now % 512 ≡ 0 }
        requires within { 512 * sector + length bytes.now ≤ length self.old.content }

        // Whatever comes of it, the device below is not used.
        ensures below { self.new.inner ≡ self.old.inner }
        ensures ok { OnOk result (self.new.content ≡ written self.old.content sector bytes.now) }
        ensures outside { SameOutside (512 * sector) (length bytes.now) self.old.content self.new.content }
        ensures unfailing { OnOk result (self.new.faults ≡ self.old.faults) }
        ensures err { OnErr result (self.new.faults ≡ self.old.faults ++ failed_write sector (length bytes.now) ∷ []) }
    {
        if keep(&mut self.blocks, sector, bytes).is_err() {
            self.faults = self.faults.with_fault(&Fault::write(sector, bytes.len()));
            return Err(WriteFault);
        }
        Ok(())
    }
}

// Lays over what was read from a sector on the sectors that are kept.
fn lay_over(blocks: &BTreeMap<u64, [u8; 512]>, sector: u64, buf: &mut [u8])
    requires whole { length buf.old % 512 ≡ 0 }
    requires within { 512 * sector + length buf.old ≤ 2 ^ 63 }
    ensures size { length buf.new ≡ length buf.old }
    ensures each { (k : ℕ) → k < length buf.old → slice_index buf.new k ≡ byte_over blocks.now (512 * sector + k) (slice_index buf.old k) }
{
    for i in 0..buf.len() / 512 {
        lay_sector(blocks, sector + i as u64, buf, 512 * i);
    }
}

// Lays one sector over its place, where it is kept.
fn lay_sector(blocks: &BTreeMap<u64, [u8; 512]>, sector: u64, buf: &mut [u8], start: usize)
    requires { start + 512 ≤ length buf.old }
    ensures size { length buf.new ≡ length buf.old }
    ensures inside { (j : ℕ) → j < 512 → slice_index buf.new (start + j) ≡ unwrap_or (option_map (λ block. slice_index block j) (get nat_cmp blocks.now sector)) (slice_index buf.old (start + j)) }
    ensures outside { (k : ℕ) → (k < start) ⊎ (start + 512 ≤ k) → slice_index buf.new k ≡ slice_index buf.old k }
{
    if let Some(block) = blocks.get(&sector) {
        buf[start..start + 512].copy_from_slice(block);
    }
}

// Keeps each sector of what is written. Where memory runs out some are kept.
fn keep(blocks: &mut BTreeMap<u64, [u8; 512]>, sector: u64, bytes: &[u8]) -> Result<(), AllocError>
    requires whole { length bytes.now % 512 ≡ 0 }
    requires within { 512 * sector + length bytes.now ≤ 2 ^ 63 }
    ensures inside { OnOk result ((i : ℕ) → 512 * i < length bytes.now → get nat_cmp blocks.new (sector + i) ≡ Some (part bytes.now (512 * i) 512)) }
    ensures outside { (n : ℕ) → (n < sector) ⊎ (sector + length bytes.now / 512 ≤ n) → get nat_cmp blocks.new n ≡ get nat_cmp blocks.old n }
{
    for i in 0..bytes.len() / 512 {
        blocks.insert(sector + i as u64, block_at(bytes, 512 * i))?;
    }
    Ok(())
}

#[tactic(auto, unfolding(crate::specs::Splice::part))]
fn block_at(bytes: &[u8], start: usize) -> [u8; 512]
    requires { start + 512 ≤ length bytes.now }
    ensures { result ≡ part bytes.now start 512 }
{
    let mut block = [0; 512];
    block.copy_from_slice(&bytes[start..start + 512]);
    block
}
