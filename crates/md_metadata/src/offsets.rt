// Recovering members are to say no more that they have data which are about to change.
ghost use Rattle.std.specs.Prelude.{◌≡◌, ◌<◌, length, false};
ghost use Rattle.md_array.specs.Consistency.{IsConsistent};
ghost use Rattle.md_metadata.specs.Lowering.{LowersAll, LowersMember};

use md_array::Mirror;
use md_device::Device;

/// Data of the array are about to change from this sector on. Recovering members whose superblock says that they have it surely have
/// what is before it alone, and their superblocks are due: `store_other_records` stores them. In memory alone. Takes no memory.
pub fn lower_offsets<D: Device + Drop>(mirror: &mut Mirror<D>, sector: u64)
    requires sound { IsConsistent mirror.old }
    requires running { mirror.old.array.halted ≡ false }
    ensures { LowersAll sector mirror.old mirror.new }
{
    for k in 0..mirror.members() {
        lower_member(mirror, k, sector);
    }
}

// Of member k, if it is recovering.
fn lower_member<D: Device + Drop>(mirror: &mut Mirror<D>, k: usize, sector: u64)
    requires within { k < length mirror.old.array.members }
    requires sound { IsConsistent mirror.old }
    requires running { mirror.old.array.halted ≡ false }
    ensures { LowersMember k sector mirror.old mirror.new }
{
    if mirror.state(k).is_recovering() {
        mirror.lower_offset(k, sector);
    }
}
