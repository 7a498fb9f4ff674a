// Sectors are written to the target.
ghost use Rattle.std.specs.Prelude.{◌≡◌, ◌+◌, ◌/◌, ◌%◌, ◌<◌, ◌≤◌, MatchResult, length, true};
ghost use Rattle.md_array.specs.Consistency.{IsConsistent};
ghost use Rattle.md_copy.specs.Salvaging.Putting.{FailsToPut, PutsRun};
ghost use Rattle.md_copy.specs.Salvaging.Sectors.{AreLacked};
ghost use Rattle.md_kept_members.specs.View.{MemberView};
ghost use Rattle.md_state.specs.Members.{IsMember};
ghost use Rattle.md_state.specs.Missing.{is_rebuilt};
ghost use Rattle.md_state.specs.Steps.MakeClean.{IsIdle};

use md_array::{Mirror, put_on};
use md_device::{Device, WriteFault};

/// Writes these bytes to the target, from this sector of the array on, in one write of its device.
pub(crate) fn put_run<D: Device + Drop>(
    mirror: &mut Mirror<D>,
    target: usize,
    sector: u64,
    bytes: &[u8],
) -> Result<(), WriteFault>
    requires within { target < length mirror.old.array.members }
    requires sound { IsConsistent mirror.old }
    requires idle { IsIdle mirror.old.array }
    requires target { (m : MemberView) → IsMember mirror.old.array target m → is_rebuilt m.state ≡ true }
    requires some { 512 ≤ length bytes.now }
    requires whole { length bytes.now % 512 ≡ 0 }
    requires inside { sector + length bytes.now / 512 ≤ mirror.old.array.chunks.size }
    requires lacked { AreLacked mirror.old target sector (sector + length bytes.now / 512) }
    ensures gives { MatchResult result (λ _. PutsRun target sector bytes.now mirror.old mirror.new) (λ _. FailsToPut target sector bytes.now mirror.old mirror.new) }
    ensures sound { IsConsistent mirror.new }
{
    let offset = mirror.own(target).data_offset;
    let devices = mirror.lend();
    put_on(devices.as_mut_slice(), target, offset, sector, bytes)
}
