// Magic numbers, and whether they stand on a device.
ghost use Rattle.std.specs.Prelude.{◌≡◌, length, true};
ghost use Rattle.std.specs.List.{list_all, list_any};
ghost use Rattle.std.specs.Str.{bytes_eq};
ghost use Rattle.md_device.specs.Splice.{part};
ghost use Rattle.md_notices.specs.Signatures.Magics.{has_sign, is_in_one_sector, sign_of};
ghost use Rattle.md_notices.specs.Signatures.Reading.{Heeds, IsOnlySearched, TellsWhetherThere};

use crate::signatures::read_sector::read_sector;
use md_device::Device;

/// Bytes at a place, which counts from the start of the device.
#[derive(Clone, Copy)]
pub struct Magic {
    pub place: u64,
    pub bytes: &'static [u8],
}

/// Whether these bytes stand at the place.
#[tactic(auto, unfolding(md_device::specs::Splice::part))]
pub(crate) fn has_bytes(bytes: &[u8], place: usize, wanted: &[u8]) -> bool
    ensures { result ≡ bytes_eq (part bytes.now place (length wanted.now)) wanted.now }
{
    if place > bytes.len() {
        return wanted.is_empty();
    }
    let rest = &bytes[place..];
    if wanted.len() > rest.len() {
        return false;
    }
    &rest[..wanted.len()] == wanted
}

/// Whether the magic number stands on the device. Its sector is read, once.
pub(crate) fn look_for_magic<D: Device>(
    device: &mut D,
    magic: &Magic,
    has_failed: &mut bool,
) -> bool
    requires { is_in_one_sector (sign_of magic.now) ≡ true }
    ensures only_read { IsOnlySearched D.Device device.old device.new }
    ensures heeds { Heeds D.Device device.old device.new has_failed.old has_failed.new }
    ensures tells { TellsWhetherThere D.Device device.old device.new
        (has_sign (D.content device.old) (sign_of magic.now))
        result }
{
    match read_sector(device, magic.place / 512, has_failed) {
        Some(sector) => has_bytes(&sector, (magic.place % 512) as usize, magic.bytes),
        None => false,
    }
}

/// Whether one of the magic numbers stands on the device. The sectors of no more than these are read.
pub(crate) fn look_for_any<D: Device>(
    device: &mut D,
    magics: &[Magic],
    has_failed: &mut bool,
) -> bool
    requires { list_all (λ m. is_in_one_sector (sign_of m)) magics.now ≡ true }
    ensures only_read { IsOnlySearched D.Device device.old device.new }
    ensures heeds { Heeds D.Device device.old device.new has_failed.old has_failed.new }
    ensures tells { TellsWhetherThere D.Device device.old device.new
        (list_any (λ m. has_sign (D.content device.old) (sign_of m)) magics.now) result }
{
    for magic in magics {
        if look_for_magic(device, magic, has_failed) {
            return true;
        }
    }
    false
}
