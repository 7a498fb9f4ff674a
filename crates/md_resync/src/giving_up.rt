// A resync did not come to its end.
ghost use Rattle.std.specs.Prelude.{◌≡◌, false};
ghost use Rattle.md_state.specs.Steps.MakeClean.{IsIdle};
ghost use Rattle.md_array.specs.Consistency.{IsConsistent};
ghost use Rattle.md_resync.specs.Resyncing.{GivesUp};

use md_array::Mirror;
use md_device::Device;

/// Notes that the array is not resynced, unless the mirror is halted: such a mirror changes no more.
pub(crate) fn give_up<D: Device + Drop>(mirror: &mut Mirror<D>)
    requires sound { IsConsistent mirror.old }
    requires idle { mirror.old.array.halted ≡ false → IsIdle mirror.old.array }
    ensures gives { GivesUp mirror.old mirror.new }
    ensures sound { IsConsistent mirror.new }
{
    if mirror.halted() {
        return;
    }
    mirror.note_unresynced();
}
