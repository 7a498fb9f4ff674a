// The member that a command names.
ghost use Rattle.std.specs.Prelude.{◌≡◌, ◌<◌, ◌≤◌, MatchResult, length};
ghost use Rattle.md_refusals.specs.declared.fault.CommandFault.TheVariants.{BadMember};

use md_array::Mirror;
use md_device::Device;
use md_refusals::CommandFault;

/// The member with this index, if there is one.
pub(crate) fn named_member<D: Device + Drop>(
    mirror: &Mirror<D>,
    member: u32,
) -> Result<usize, CommandFault>
    ensures { MatchResult result
        (λ k. (k ≡ member) × (k < length mirror.now.array.members))
        (λ fault. (fault ≡ BadMember) × (length mirror.now.array.members ≤ member)) }
{
    let k = member as usize;
    if k >= mirror.members() {
        return Err(CommandFault::BadMember);
    }
    Ok(k)
}
