// Sectors go to each member in sync but the one that gave them.
ghost use Rattle.std.specs.Prelude.{◌<◌, ◌≤◌, MatchResult, length};
ghost use Rattle.md_array.specs.Consistency.{IsConsistent};
ghost use Rattle.md_resync.specs.Copying.{GivesAll, GivesWhereUnlike, GivingFails, IsRun};

use crate::compare_member::compare_member;
use crate::fault::ResyncFault;
use md_array::{CopyFault, Mirror};
use md_device::Device;

/// Gives what member `from` holds from this sector on to each other member in sync that is not known to hold it.
/// `held` is room for as many bytes. Takes no memory.
pub(crate) fn copy_to_members<D: Device + Drop>(
    mirror: &mut Mirror<D>,
    from: usize,
    sector: u64,
    bytes: &[u8],
    held: &mut [u8],
) -> Result<(), ResyncFault>
    requires room { length bytes.now ≤ length held.old }
    requires sound { IsConsistent mirror.old }
    requires run { IsRun from sector bytes.now mirror.old }
    ensures { MatchResult result (λ _. GivesAll sector bytes.now mirror.old mirror.new) (GivingFails mirror.old mirror.new) }
{
    for k in 0..mirror.members() {
        copy_to(mirror, from, k, sector, bytes, held)?;
    }
    Ok(())
}

// Gives it to member k, if that is in sync, and another, and is not known to hold it.
fn copy_to<D: Device + Drop>(
    mirror: &mut Mirror<D>,
    from: usize,
    k: usize,
    sector: u64,
    bytes: &[u8],
    held: &mut [u8],
) -> Result<(), ResyncFault>
    requires within { k < length mirror.old.array.members }
    requires room { length bytes.now ≤ length held.old }
    requires sound { IsConsistent mirror.old }
    requires run { IsRun from sector bytes.now mirror.old }
    ensures { MatchResult result (λ _. GivesWhereUnlike k sector bytes.now mirror.old mirror.new) (GivingFails mirror.old mirror.new) }
{
    if k == from || !mirror.state(k).is_in_sync() {
        return Ok(());
    }
    if compare_member(mirror, k, sector, bytes, held) {
        return Ok(());
    }
    match mirror.copy_data(k, sector, bytes) {
        Ok(()) => Ok(()),
        Err(CopyFault::MemberFailed(j)) => Err(ResyncFault::MemberFailed(j)),
        Err(CopyFault::Halted) => Err(ResyncFault::Halted),
    }
}
