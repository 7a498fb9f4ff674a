// Images under their masks.
ghost use Rattle.std.specs.Prelude.{◌≡◌, ◌≤◌, ◌^◌, ◌&&◌, ◌++◌, ◌∷◌, ℕ, List, [], true, is_some, IfErr, IfOk, OnOk, OnErr};
ghost use Rattle.md_images.specs.MemImages.{device_in};
ghost use Rattle.md_files.specs.Masks.Images.Masks.{HasSize, IsMissingByMap, KeepsAll, RefusesLacking, mask_of, masked, named_mask};

use crate::masks::device::MaskedDevice;
use crate::masks::images::fault::LackingFault;
use crate::masks::maps::read_map;
use md_badblocks::BadSet;
use md_device::{Device, MemDevice};
use md_images::{Access, ImageFault, Images, MemImages};
use std::alloc::{AllocError, Global};

/// Images of which some are copies of disks: what a copy lacks is not read of it. An image is had under a name that was
/// added; its mask goes with its device, and is kept with it when the device is put back. Only in memory: an image has no
/// mask of its own.
#[derive(Drop)]
pub struct MaskedImages<I> {
    alloc: Global,
    pub(crate) images: I,
    // Each mask is over a device without sectors while its image is not had.
    pub(crate) masks: MemImages<MaskedDevice<MemDevice>>,
}

// A device without sectors.
fn no_device(alloc: Global) -> MemDevice
    ensures { result ≡ [] }
{
    MemDevice::from_bytes(Vec::new(alloc))
}

/// The mask of a copy that lacks these sectors, of which the disk has any bytes.
pub(crate) fn mask_of(alloc: Global, missing: BadSet) -> MaskedDevice<MemDevice>
    ghost disk: { List ℕ }
    ensures { result ≡ mask_of missing disk }
{
    MaskedDevice::new(no_device(alloc), missing)
}

// A mask that hides nothing.
fn no_mask(alloc: Global) -> MaskedDevice<MemDevice>
    ensures { result ≡ mask_of [] [] }
{
    mask_of(alloc, BadSet::new(alloc))
}

impl<I> MaskedImages<I> {
    /// Images of which none is had yet under a name. Takes no memory.
    pub fn new(alloc: Global, images: I) -> MaskedImages<I>
        ensures images { result.images ≡ images }
        ensures masks { result.masks ≡ [] }
    {
        MaskedImages {
            alloc,
            images,
            masks: MemImages::new(alloc),
        }
    }
}

impl<I: Images> MaskedImages<I> {
    /// The image under a name has this mask. Of two of one name the first counts.
    pub fn add(&mut self, name: &str, mask: MaskedDevice<MemDevice>) -> Result<(), AllocError>
        ensures ok { OnOk result (self.new.masks ≡ self.old.masks ++ named_mask name.now mask ∷ []) }
        ensures err { OnErr result (self.new.masks ≡ self.old.masks) }
        ensures images { self.new.images ≡ self.old.images }
    {
        self.masks.add(name, mask)
    }

    /// What the image under a name lacks by its map, of the whole of it. It is looked at.
    pub fn lacking(&mut self, name: &str, map: &[u8]) -> Result<BadSet, LackingFault>
        ensures ok { IfOk result (IsMissingByMap I.Images I.Dev.Device name.now map.now self.old.images) }
        ensures err { IfErr result (RefusesLacking I.Images I.Dev.Device name.now map.now self.old.images) }
        ensures masks { self.new.masks ≡ self.old.masks }
        ensures images { KeepsAll I.Images self.old.images self.new.images }
    {
        let size = size_of(&mut self.images, name).map_err(LackingFault::Image)?;
        read_map(self.alloc, map, size).map_err(LackingFault::Map)
    }
}

// How many bytes an image has. It is looked at.
fn size_of<I: Images>(images: &mut I, name: &str) -> Result<u64, ImageFault>
    ensures limit { IfOk result (λ size. size ≤ 2 ^ 63) }
    ensures size { IfOk result (λ size. I.known images.old ≡ true → HasSize I.Dev.Device (I.device_at images.old name.now) size) }
    ensures kept { KeepsAll I.Images images.old images.new }
{
    let device = images.get(name, Access::Look)?;
    let size = 512 * device.sectors();
    images.put(name, device);
    Ok(size)
}

impl<I: Images> Images for MaskedImages<I> {
    type Dev = MaskedDevice<I::Dev>;

    ghost known = { λ s. I.known s.images };

    ghost holds = { λ s n. I.holds s.images n && is_some (device_in s.masks n) };

    ghost device_at = { λ s n. masked (I.device_at s.images n) (device_in s.masks n) };

    ghost changeable = { λ s n. I.changeable s.images n };

    ghost asked = { λ s n. I.asked s.images n };

    fn get(&mut self, name: &str, access: Access) -> Result<MaskedDevice<I::Dev>, ImageFault> {
        let mask = self.masks.get(name, Access::Look)?;
        match self.images.get(name, access) {
            Ok(device) => {
                self.masks.put(name, no_mask(self.alloc));
                let (device, _) = mask.moved_over(device);
                Ok(device)
            }
            Err(fault) => {
                self.masks.put(name, mask);
                Err(fault)
            }
        }
    }

    fn put(&mut self, name: &str, device: MaskedDevice<I::Dev>) {
        let (mask, device) = device.moved_over(no_device(self.alloc));
        if self.masks.get(name, Access::Look).is_ok() {
            self.masks.put(name, mask);
        }
        self.images.put(name, device);
    }
}
