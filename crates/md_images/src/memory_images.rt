// Images in memory.
ghost use Rattle.std.specs.Prelude.{◌≡◌, ◌||◌, ◌++◌, ◌∷◌, [], false, true, None, OnOk, OnErr, option_copied, position, string_bytes};
ghost use Rattle.std.specs.Str.{bytes_eq};
ghost use Rattle.md_images.specs.Images.{allows, asks};
ghost use Rattle.md_images.specs.MemImages.{asked_in, changeable_in, device_in, holds_in};

use crate::access::Access;
use crate::image_fault::ImageFault;
use crate::images::Images;
use crate::shared_read::SharedRead;
use std::alloc::{AllocError, Global};
use std::marker::Model;

/// Images in memory, for tests and for whoever gives commands without files. Contracts see the
/// places in order, each with its name, the device in it, whether that may be changed, and whether it was ever
/// had to be changed. Of places of one name the first counts.
#[derive(Drop)]
pub struct MemImages<D> {
    places: Vec<Place<D>>,
}

// A device that is taken out leaves `None`.
#[derive(Drop)]
struct Place<D> {
    name: String,
    device: Option<D>,
    changeable: bool,
    asked: bool,
}

impl<D> Model for MemImages<D> {
    ghost use Rattle.std.specs.Prelude.{List};
    ghost use Rattle.std.specs.Coded.{coded_list};
    ghost use Rattle.md_images.specs.MemImages.{Named, named_code};

    ghost Value = { List (Named D) };

    ghost coded = { coded_list (named_code D.code) };

    ghost use Rattle.md_images.specs.MemPlaces.{named_places};

    ghost view = { λ images. named_places images.places.items };
}

impl<D> MemImages<D> {
    /// No images. Takes no memory.
    pub fn new(alloc: Global) -> MemImages<D>
        ensures { result ≡ [] }
    {
        MemImages {
            places: Vec::new(alloc),
        }
    }

    /// Adds a place with a device that may be changed, after the others.
    pub fn add(&mut self, name: &str, device: D) -> Result<(), AllocError>
    where
        D: Drop,
        ensures ok { OnOk result (self.new ≡ self.old ++ record { name = name.now; device = Some device; changeable = true; asked = false } ∷ []) }
        ensures err { OnErr result (self.new ≡ self.old) }
    {
        self.add_place(name, device, true)
    }

    /// Adds a place with a device that may only be looked at, after the others. Whoever gets it can
    /// still write to it: it is the request to change it that is refused.
    pub fn add_protected(&mut self, name: &str, device: D) -> Result<(), AllocError>
    where
        D: Drop,
        ensures ok { OnOk result (self.new ≡ self.old ++ record { name = name.now; device = Some device; changeable = false; asked = false } ∷ []) }
        ensures err { OnErr result (self.new ≡ self.old) }
    {
        self.add_place(name, device, false)
    }

    fn add_place(&mut self, name: &str, device: D, changeable: bool) -> Result<(), AllocError>
    where
        D: Drop,
        ensures ok { OnOk result (self.new ≡ self.old ++ record { name = name.now; device = Some device; changeable = changeable; asked = false } ∷ []) }
        ensures err { OnErr result (self.new ≡ self.old) }
    {
        let name = String::from_str(*self.places.allocator(), name)?;
        let device = Some(device);
        self.places.push(Place {
            name,
            device,
            changeable,
            asked: false,
        })?;
        Ok(())
    }

    /// The device under a name, unless it is taken out.
    pub fn device(&self, name: &str) -> Option<&D>
        ensures { option_copied result ≡ device_in self.now name.now }
    {
        let at = place_of(self.places.as_slice(), name)?;
        self.places[at].device.as_ref()
    }
}

impl<D: SharedRead + Drop + Send + Sync> Images for MemImages<D> {
    type Dev = D;

    ghost known = { λ _. true };

    ghost holds = { holds_in };

    ghost device_at = { device_in };

    ghost changeable = { changeable_in };

    ghost asked = { asked_in };

    fn get(&mut self, name: &str, access: Access) -> Result<D, ImageFault> {
        let Some(at) = place_of(self.places.as_slice(), name) else {
            return Err(ImageFault::Missing);
        };
        if !is_allowed(access, self.places[at].changeable) {
            return Err(ImageFault::NotWritable);
        }
        take_out(&mut self.places[at], access).ok_or(ImageFault::Missing)
    }

    fn put(&mut self, name: &str, device: D) {
        if let Some(at) = place_of(self.places.as_slice(), name) {
            drop(self.places[at].device.replace(device));
        }
    }
}

// Takes the device out of its place, and keeps in mind what for.
fn take_out<D>(place: &mut Place<D>, access: Access) -> Option<D>
    ensures device { result ≡ place.old.device }
    ensures place { place.new ≡ record place.old { device = None; asked = place.old.asked || asks access } }
{
    if asks(access) {
        place.asked = true;
    }
    place.device.take()
}

// Whether what is had for this access may be changed.
fn asks(access: Access) -> bool
    ensures { result ≡ asks access }
{
    match access {
        Access::Look => false,
        Access::Change | Access::ChangeOrLook => true,
    }
}

fn is_allowed(access: Access, changeable: bool) -> bool
    ensures { result ≡ allows access changeable }
{
    match access {
        Access::Change => changeable,
        Access::Look | Access::ChangeOrLook => true,
    }
}

// The index of the first place with a name.
fn place_of<D>(places: &[Place<D>], name: &str) -> Option<usize>
    ensures { result ≡ position (λ p. bytes_eq (string_bytes p.name) name.now) places.now }
{
    places.iter().position(|place| place.name.as_str() == name)
}
