// The length of an input that is known before it is read.
ghost use Rattle.std.specs.Prelude.{◌≡◌, ◌+◌, ◌^◌, ◌<◌, ◌↔◌, MatchResult, true};
ghost use Rattle.md_state.specs.Steps.Begin.{IsInRange};
ghost use Rattle.md_commands.specs.ToldLength.{IsKnownLength, MayBeRead, RefusesKnown, RefusesTold};

use crate::input::check_length;
use md_array::{BeginFault, Mirror};
use md_device::Device;
use md_refusals::CommandFault;

/// How many bytes an input has to have, where that is known before it is read: so many sectors as are asked for, or what it tells.
/// Refuses it for that, if it would be refused once it was read, and where it tells another length than is asked for.
pub(crate) fn known_length<D: Device + Drop>(
    mirror: &Mirror<D>,
    sector: u64,
    count: Option<u64>,
    told: Option<u64>,
) -> Result<Option<u64>, CommandFault>
    ensures { MatchResult result
        (IsKnownLength mirror.now.array sector count told)
        (RefusesKnown mirror.now.array sector count told) }
{
    let Some(count) = count else {
        check_told(mirror, sector, told)?;
        return Ok(told);
    };
    // No array is so long that 64 bits have no room for its bytes.
    let Some(len) = count.checked_mul(512) else {
        return Err(CommandFault::OutOfRange);
    };
    check_told(mirror, sector, Some(len))?;
    match told {
        Some(told) if told != len => Err(CommandFault::BadLength),
        _ => Ok(Some(len)),
    }
}

// Refuses an input for this length, if it would be refused for that once it was read. Of an array that is not
// resynced that its sectors are past the end is said after the resync, and so after the input was read.
fn check_told<D: Device + Drop>(
    mirror: &Mirror<D>,
    sector: u64,
    told: Option<u64>,
) -> Result<(), CommandFault>
    ensures { MatchResult result
        (λ _. MayBeRead mirror.now.array sector told)
        (RefusesTold mirror.now.array sector told) }
{
    let Some(len) = told else {
        return Ok(());
    };
    check_length(len, mirror.chunks().size)?;
    if mirror.resynced() && !is_in_range(mirror, sector, len / 512) {
        return Err(CommandFault::Write(BeginFault::OutOfRange));
    }
    Ok(())
}

/// Whether the array has these sectors, one at least.
pub(crate) fn is_in_range<D: Device + Drop>(mirror: &Mirror<D>, sector: u64, sectors: u64) -> bool
    ensures is { (result ≡ true) ↔ IsInRange mirror.now.array sector sectors }
    ensures fits { result ≡ true → sector + sectors < 2 ^ 64 }
{
    let size = mirror.chunks().size;
    0 < sectors && sectors <= size && sector <= size - sectors
}
