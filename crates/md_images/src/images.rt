// Images by name.
ghost use Rattle.std.specs.Prelude.{◌≡◌, ◌≢◌, ℕ, List, Bool, false, true, Option, Some, None, IfOk, MatchResult};
ghost use Rattle.md_images.specs.Images.{IsImageRefused, allows, asks};

use crate::access::Access;
use crate::image_fault::ImageFault;
use crate::shared_read::SharedRead;

/// Devices that are taken out and put back under their names.
pub trait Images {
    /// A device that workers may read: each has one of its own, or they share one that is only looked at.
    type Dev: SharedRead + Drop + Send + Sync;

    /// Whether it is known which devices there are. It is not of files.
    ghost known: { Self → Bool };

    /// Whether there is a place for a device under a name.
    ghost holds: { Self → List ℕ → Bool };

    /// The device in the place under a name.
    ghost device_at: { Self → List ℕ → Option Self.Dev };

    /// Whether the image under a name may be changed. No call changes this.
    ghost changeable: { Self → List ℕ → Bool };

    /// Whether the image under a name was ever had so that it may have been changed, and not only to look at it.
    ghost asked: { Self → List ℕ → Bool };

    /// Takes out the device under a name, to look at it or to change it. A name that has none, since
    /// it is unknown or its device is out already, is refused, and so is one whose device can't be
    /// opened in that way. A refusal leaves the device in its place.
    fn get(&mut self, name: &str, access: Access) -> Result<Self::Dev, ImageFault>
        ensures known { known self.new ≡ known self.old }
        ensures places { known self.old ≡ true → (n : List ℕ) → holds self.new n ≡ holds self.old n }
        ensures rights { known self.old ≡ true → (n : List ℕ) → changeable self.new n ≡ changeable self.old n }
        ensures gives { known self.old ≡ true → MatchResult result
            (λ d. (holds self.old name.now ≡ true) × (device_at self.old name.now ≡ Some d))
            (IsImageRefused (device_at self.old name.now) (allows access (changeable self.old name.now))) }
        ensures allowed { known self.old ≡ true → IfOk result (λ _. allows access (changeable self.old name.now) ≡ true) }
        ensures gone { known self.old ≡ true → MatchResult result
            (λ _. device_at self.new name.now ≡ None)
            (λ _. device_at self.new name.now ≡ device_at self.old name.now) }
        ensures others { known self.old ≡ true → (other : List ℕ) → other ≢ name.now
            → device_at self.new other ≡ device_at self.old other }
        ensures looks { known self.old ≡ true → asks access ≡ false → (n : List ℕ) → asked self.new n ≡ asked self.old n }
        ensures asks { known self.old ≡ true → asks access ≡ true → IfOk result (λ _. asked self.new name.now ≡ true) };

    /// Puts a device into the place under a name.
    fn put(&mut self, name: &str, device: Self::Dev)
        requires { known self.old ≡ true → holds self.old name.now ≡ true }
        ensures known { known self.new ≡ known self.old }
        ensures places { known self.old ≡ true → (n : List ℕ) → holds self.new n ≡ holds self.old n }
        ensures rights { known self.old ≡ true → (n : List ℕ) → changeable self.new n ≡ changeable self.old n }
        ensures asked { known self.old ≡ true → (n : List ℕ) → asked self.new n ≡ asked self.old n }
        ensures back { known self.old ≡ true → device_at self.new name.now ≡ Some device }
        ensures others { known self.old ≡ true → (other : List ℕ) → other ≢ name.now
            → device_at self.new other ≡ device_at self.old other };
}
