// Laying new members out on their devices.
ghost use Rattle.std.specs.Prelude.{◌≡◌, ◌≤◌, ◌<◌, ◌*◌, ℕ, Some, length, slice_get};
ghost use Rattle.md_state.specs.View.{Disk};
ghost use Rattle.md_cli.specs.Arrays.{disks};
ghost use Rattle.md_cli.specs.Creating.{AreLaidOut, At, FailsInLayout};

use md_create::{NewMember, lay_out};
use md_device::Device;

/// Lays members out, each on its device, up to the first where a write fails, and gives its place:
/// the number of devices where there is none.
pub(crate) fn lay_out_each<D: Device>(devices: &mut [D], members: &[NewMember]) -> usize
    requires as_many { length members.now ≡ length devices.old }
    requires room { (k : ℕ) (d : Disk) → slice_get (disks D.Device devices.old) k ≡ Some d
        → 512 * 2048 ≤ length d.content }
    ensures few { result ≤ length devices.old }
    ensures laid_out { AreLaidOut (disks D.Device devices.old) (disks D.Device devices.new)
        members.now result }
    ensures stopped { result < length devices.old
        → At FailsInLayout (disks D.Device devices.old) (disks D.Device devices.new) members.now result }
{
    for place in 0..devices.len() {
        if lay_out(&mut devices[place], &members[place]).is_err() {
            return place;
        }
    }
    devices.len()
}
