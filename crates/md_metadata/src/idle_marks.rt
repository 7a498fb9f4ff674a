// Marks go from memory.
ghost use Rattle.std.specs.Prelude.{◌≡◌, ◌<◌};
ghost use Rattle.md_array.specs.Consistency.{IsConsistent};
ghost use Rattle.md_metadata.specs.Clearing.{ClearsAll, ClearsMark, MayClearAll};

use md_array::Mirror;
use md_device::Device;

// Takes a chunk's mark away, if it has one.
fn clear_mark<D: Device + Drop>(mirror: &mut Mirror<D>, chunk: u32)
    requires within { chunk < mirror.old.array.marks.chunks }
    requires sound { IsConsistent mirror.old }
    requires may { MayClearAll mirror.old.array }
    ensures { ClearsMark chunk mirror.old mirror.new }
{
    if !mirror.marks().is_marked(chunk) {
        return;
    }
    // Nothing refuses it: no request is in flight.
    let _cleared = mirror.clear_idle(chunk);
}

/// Takes all marks away, in memory alone. `store_all_marks` stores that. Takes no memory.
pub fn clear_marks<D: Device + Drop>(mirror: &mut Mirror<D>)
    requires sound { IsConsistent mirror.old }
    requires may { MayClearAll mirror.old.array }
    ensures { ClearsAll mirror.old mirror.new }
{
    for chunk in 0..mirror.marks().chunks() {
        clear_mark(mirror, chunk);
    }
}
