// Images as copies of disks, by their maps.
ghost use Rattle.std.specs.Prelude.{◌≡◌, ◌<◌, ◌==◌, IfErr, IfOk, OnOk, Some, length, map, position, slice_get};
ghost use Rattle.md_files.specs.Masks.Images.Copies.{AreMasked, LacksByFirstMap, LacksByMap, RefusesMap, RefusesMasks, first_of};
ghost use Rattle.md_files.specs.Masks.Images.Masks.{KeepsAll};
ghost use Rattle.md_files.specs.Masks.Images.OwnLines.{AreOwn};

use crate::masks::images::fault::{LackingFault, MapRefusal, MapsFault};
use crate::masks::images::masked_images::{MaskedImages, mask_of};
use crate::masks::images::own_lines::check_own_lines;
use crate::masks::maps::MapFault;
use md_badblocks::BadSet;
use md_images::{ImageRefusal, Images};
use std::alloc::Global;

/// The text of a map, and the place of its image among those listed, from 0.
#[derive(Drop)]
pub struct MapText {
    pub image: usize,
    pub text: Vec<u8>,
}

/// The images under these names, of which some are copies that lack what their maps say: of two maps of one image the first
/// counts. The images with maps are looked at, and no image is changed. A map that by its own line is of another of these images
/// is refused, before any is looked at.
pub fn mask_images<I: Images>(
    alloc: Global,
    images: I,
    names: &[&str],
    maps: &[MapText],
) -> Result<MaskedImages<I>, MapsFault>
where
    I: Drop,
    ensures masks { IfOk result (λ masked. AreMasked I.Images I.Dev.Device images maps.now
        (map (λ s. s.now) names.now) (length names.now) masked.masks) }
    ensures images { IfOk result (λ masked. KeepsAll I.Images images masked.images) }
    ensures own { OnOk result (AreOwn names.now maps.now (length maps.now)) }
    ensures refused { IfErr result (RefusesMasks I.Images I.Dev.Device images maps.now names.now (map (λ s. s.now) names.now)) }
{
    check_own_lines(names, maps)?;
    let mut masked = MaskedImages::new(alloc, images);
    for (image, name) in names.iter().enumerate() {
        let missing = lacking_at(alloc, &mut masked, image, name, maps)?;
        if masked.add(name, mask_of(alloc, missing)).is_err() {
            return Err(MapsFault::NoMemory);
        }
    }
    Ok(masked)
}

// What the image at this place lacks: what the first of its maps says, and where it has none nothing.
fn lacking_at<I: Images>(
    alloc: Global,
    masked: &mut MaskedImages<I>,
    image: usize,
    name: &str,
    maps: &[MapText],
) -> Result<BadSet, MapsFault>
    ensures lacks { IfOk result (LacksByFirstMap I.Images I.Dev.Device masked.old.images maps.now image name.now) }
    ensures refused { IfErr result (RefusesMap I.Images I.Dev.Device masked.old.images maps.now image name.now) }
    ensures masks { masked.new.masks ≡ masked.old.masks }
    ensures images { KeepsAll I.Images masked.old.images masked.new.images }
{
    match first_of(maps, image) {
        Some(place) => lacking(masked, image, name, place, maps),
        None => Ok(BadSet::new(alloc)),
    }
}

// The place of the first map of this image.
fn first_of(maps: &[MapText], image: usize) -> Option<usize>
    ensures { result ≡ position (λ text. text.image == image) maps.now }
{
    maps.iter().position(|text| text.image == image)
}

// What an image lacks by the map at this place.
fn lacking<I: Images>(
    masked: &mut MaskedImages<I>,
    image: usize,
    name: &str,
    place: usize,
    maps: &[MapText],
) -> Result<BadSet, MapsFault>
    requires within { place < length maps.now }
    requires first { first_of maps.now image ≡ Some place }
    ensures refused { IfErr result (RefusesMap I.Images I.Dev.Device masked.old.images maps.now image name.now) }
    ensures lacks { IfOk result (LacksByMap I.Images I.Dev.Device masked.old.images maps.now place name.now) }
    ensures masks { masked.new.masks ≡ masked.old.masks }
    ensures images { KeepsAll I.Images masked.old.images masked.new.images }
{
    match masked.lacking(name, maps[place].text.as_slice()) {
        Ok(missing) => Ok(missing),
        Err(LackingFault::Image(fault)) => {
            Err(MapsFault::BadImage(image, ImageRefusal::Unopened(fault)))
        }
        Err(LackingFault::Map(MapFault::NoMemory)) => Err(MapsFault::NoMemory),
        Err(LackingFault::Map(fault)) => Err(MapsFault::BadMap(place, MapRefusal::Map(fault))),
    }
}
