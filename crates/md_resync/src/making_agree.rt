// Making members agree where they may differ.
ghost use Rattle.std.specs.Prelude.{◌≡◌, ◌≤◌, MatchResult, length};
ghost use Rattle.md_array.specs.Consistency.{IsConsistent};
ghost use Rattle.md_resync.specs.Copying.{MayCopyMarked};
ghost use Rattle.md_resync.specs.Resyncing.{AgreeingFails, Agrees};

use crate::chunks::copy_marked;
use crate::fault::ResyncFault;
use md_array::Mirror;
use md_device::Device;

/// Makes members in sync agree in each marked chunk, through a buffer of at least one sector and another of its length.
/// Each sector goes from the member of the lowest role that does not list it to the other members in sync, but for those
/// that are known to hold it. With one member in sync nothing is read. The first failure ends it.
pub fn make_agree<D: Device + Drop>(
    mirror: &mut Mirror<D>,
    buffer: &mut [u8],
    held: &mut [u8],
) -> Result<(), ResyncFault>
    requires room { 512 ≤ length buffer.old }
    requires as_much { length held.old ≡ length buffer.old }
    requires sound { IsConsistent mirror.old }
    requires may { MayCopyMarked mirror.old.array }
    ensures { MatchResult result (λ _. Agrees mirror.old mirror.new) (AgreeingFails mirror.old mirror.new) }
{
    // A member that is alone in sync is not read.
    if !mirror.has_two_in_sync() {
        return Ok(());
    }
    copy_marked(mirror, buffer, held)
}
