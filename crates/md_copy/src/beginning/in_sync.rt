// The roles of the members in sync.
ghost use Rattle.std.specs.Prelude.{◌≡◌, ◌↔◌, ◌<◌, ℕ};
ghost use Rattle.std.specs.Int.{bit_at};
ghost use Rattle.md_copy.specs.Table.Sources.{IsInSyncWith, IsReadInRole};

use md_array::Mirror;
use md_device::Device;
use md_kept_members::{is_write_mostly, role_in_sync};

/// The roles in which a chunk may be read of which no member lists a sector, as bits of a word: those of
/// members in sync that are not write-mostly, and of the others where there is none.
pub(crate) fn roles_to_read<D: Device + Drop>(mirror: &Mirror<D>) -> u32
    ensures { (role : ℕ) → role < 32
        → (bit_at result role ≡ 1) ↔ IsReadInRole mirror.now.array role }
{
    let roles = roles_in_sync(mirror, false);
    if roles != 0 {
        return roles;
    }
    roles_in_sync(mirror, true)
}

// The roles in which a member is in sync that is write-mostly, or one that is not.
fn roles_in_sync<D: Device + Drop>(mirror: &Mirror<D>, mostly: bool) -> u32
    ensures { (role : ℕ) → role < 32
        → (bit_at result role ≡ 1) ↔ IsInSyncWith mirror.now.array mostly role }
{
    let mut roles = 0;
    for k in 0..mirror.members() {
        if is_write_mostly(mirror.own(k)) == mostly {
            roles |= role_in_sync(mirror.state(k));
        }
    }
    roles
}
