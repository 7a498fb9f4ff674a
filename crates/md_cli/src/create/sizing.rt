// The sizes of the devices that an array is made of.
ghost use Rattle.std.specs.Prelude.{◌≡◌, ◌<◌, IfNone, IfSome, drop, length};
ghost use Rattle.md_messages.specs.Telling.{texts};
ghost use Rattle.md_cli.specs.Arrays.{disks};
ghost use Rattle.md_cli.specs.Creating.{first_size, sizes_of};

use arrayvec::ArrayVec;
use md_device::Device;
use md_images::is_missing;

/// The most devices, and missing members, that an array is made of.
const MOST_DEVICES: usize = 32;

// The size of the next device, in sectors.
fn next_size<D: Device>(devices: &[D], next: usize) -> Option<u64>
    ensures { result ≡ first_size (drop next (disks D.Device devices.now)) }
{
    match devices.get(next) {
        Some(device) => Some(device.sectors()),
        None => None,
    }
}

/// The sizes of the devices by the image words, in sectors. A missing member has none. There are none where there are more words
/// than a new array has members. Takes no memory, so that devices which make no array are told of first.
pub(crate) fn sizes_of<D: Device>(
    names: &[&str],
    devices: &[D],
) -> Option<ArrayVec<Option<u64>, MOST_DEVICES>>
    ensures sizes { IfSome result (λ sizes.
        sizes.items ≡ sizes_of (texts names.now) (disks D.Device devices.now)) }
    ensures too_many { IfNone result (32 < length names.now) }
{
    if names.len() > MOST_DEVICES {
        return None;
    }
    let mut sizes = ArrayVec::new();
    let mut next = 0;
    for place in 0..names.len() {
        if is_missing(names[place]) {
            sizes.push(None);
            continue;
        }
        sizes.push(next_size(devices, next));
        next += 1;
    }
    Some(sizes)
}
