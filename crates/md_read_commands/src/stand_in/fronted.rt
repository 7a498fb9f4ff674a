// A device of which the first sectors stand in memory.
ghost use Rattle.std.specs.Prelude.{◌≡◌, ◌+◌, ◌*◌, ◌-◌, ◌≤◌, [], IfOk, drop, length, map, vec_len};
ghost use Rattle.md_device.specs.Splice.{part, spliced};
ghost use Rattle.md_state.specs.View.{disk_of};
ghost use Rattle.md_read_commands.specs.Fronted.{fronted, fronted_disk, in_memory};

use md_device::{Device, ReadFault, WriteFault};
use std::alloc::{AllocError, Global};

const SECTOR_BYTES: usize = 512;

/// A device of which the first sectors may stand in memory: then they are read and written there alone, also where the device
/// below can't be read. All others are those of the device below.
#[derive(Drop)]
pub struct FrontedDevice<D: Device> {
    inner: D,
    front: Vec<u8>,
}

impl<D: Device> FrontedDevice<D> {
    /// The device as it is. Takes no memory.
    pub fn new(alloc: Global, inner: D) -> FrontedDevice<D>
        ensures inner { result.inner ≡ inner }
        ensures front { result.front.items ≡ [] }
    {
        FrontedDevice {
            inner,
            front: Vec::new(alloc),
        }
    }
}

impl<D: Device + Drop> FrontedDevice<D> {
    /// The device with so many of its first sectors in memory, as far as it has them. Zeros stand for those that can't be read.
    pub(crate) fn with_front(
        alloc: Global,
        mut inner: D,
        sectors: u64,
    ) -> Result<FrontedDevice<D>, AllocError>
        ensures few { IfOk result (λ d. length d.front.items ≤ 512 * sectors) }
        ensures kept { IfOk result (λ d. D.content d.inner ≡ D.content inner) }
        ensures honest { IfOk result (λ d. D.honest d.inner ≡ D.honest inner) }
        ensures counted { IfOk result (λ d. D.failures inner ≤ D.failures d.inner) }
    {
        let mut front = Vec::new(alloc);
        for sector in 0..sectors.min(inner.sectors()) {
            let mut block = [0; SECTOR_BYTES];
            read_or_zeros(&mut inner, sector, &mut block);
            front.extend_from_slice(&block)?;
        }
        Ok(FrontedDevice { inner, front })
    }
}

// Reads a sector; where that fails, zeros stand for it.
fn read_or_zeros<D: Device>(device: &mut D, sector: u64, block: &mut [u8; SECTOR_BYTES])
    requires { 512 * sector + 512 ≤ length (D.content device.old) }
    ensures kept { D.content device.new ≡ D.content device.old }
    ensures honest { D.honest device.new ≡ D.honest device.old }
    ensures counted { D.failures device.old ≤ D.failures device.new }
{
    if device.read(sector, block).is_err() {
        block.fill(0);
    }
}

/// The devices as they are, in their order.
pub fn front_each<D: Device + Drop>(
    alloc: Global,
    devices: Vec<D>,
) -> Result<Vec<FrontedDevice<D>>, AllocError>
    ensures { IfOk result (λ all. map (fronted_disk D.Device) all.items
        ≡ map (λ d. in_memory (disk_of D.Device d)) devices.items) }
{
    let mut all = Vec::new(alloc);
    for device in devices {
        all.push(FrontedDevice::new(alloc, device))?;
    }
    Ok(all)
}

// How many bytes stand in memory from a sector on.
fn kept_from(front: &[u8], sector: u64) -> usize
    ensures { result ≡ length front.now - 512 * sector }
{
    front
        .len()
        .saturating_sub(sector.saturating_mul(512) as usize)
}

// Fills `buf` with the bytes from a place on.
#[tactic(auto, unfolding(md_device::specs::Splice::part))]
fn copy_kept(front: &[u8], from: usize, buf: &mut [u8])
    requires { from + length buf.old ≤ length front.now }
    ensures { buf.new ≡ part front.now from (length buf.old) }
{
    buf.copy_from_slice(&front[from..from + buf.len()]);
}

// Puts all bytes from a place on over those at the front of `buf`.
#[tactic(auto, unfolding(md_device::specs::Splice::spliced))]
fn lay_kept(front: &[u8], from: usize, buf: &mut [u8])
    requires room { length front.now ≤ from + length buf.old }
    requires within { from ≤ length front.now }
    ensures { buf.new ≡ spliced buf.old 0 (drop from front.now) }
{
    buf[..front.len() - from].copy_from_slice(&front[from..]);
}

// Replaces the bytes from a place on.
#[tactic(auto, unfolding(md_device::specs::Splice::spliced))]
fn put_kept(front: &mut Vec<u8>, from: usize, bytes: &[u8])
    requires { from + length bytes.now ≤ vec_len front.old }
    ensures { front.new.items ≡ spliced front.old.items from bytes.now }
{
    front[from..from + bytes.len()].copy_from_slice(bytes);
}

#[tactic(auto, using(md_device::proofs::Leaving::leaves_none, crate::proofs::Fronts::fronts))]
impl<D: Device> Device for FrontedDevice<D> {
    ghost content = { λ d. fronted d.front.items (D.content d.inner) };

    ghost honest = { λ d. D.honest d.inner };

    ghost faults = { λ d. D.faults d.inner };

    ghost failures = { λ d. D.failures d.inner };

    ghost counts = { λ d. D.counts d.inner };

    // What is in memory is not left by a crash, so nothing is promised of one.
    ghost crashes = { λ _. [] };

    fn sectors(&self) -> u64 {
        self.inner.sectors()
    }

    fn read(&mut self, sector: u64, buf: &mut [u8]) -> Result<(), ReadFault> {
        let kept = kept_from(&self.front, sector);
        let from = self.front.len() - kept;
        if buf.len() <= kept {
            copy_kept(&self.front, from, buf);
            return Ok(());
        }
        self.inner.read(sector, buf)?;
        lay_kept(&self.front, from, buf);
        Ok(())
    }

    fn write(&mut self, sector: u64, bytes: &[u8]) -> Result<(), WriteFault> {
        let kept = kept_from(&self.front, sector);
        let from = self.front.len() - kept;
        if bytes.len() <= kept {
            put_kept(&mut self.front, from, bytes);
            return Ok(());
        }
        self.inner.write(sector, bytes)?;
        put_kept(&mut self.front, from, &bytes[..kept]);
        Ok(())
    }
}
