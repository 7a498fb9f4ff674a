// Devices that belong to an array, by their own superblocks.
ghost use Rattle.std.specs.Prelude.{◌≡◌, ◌↔◌, IsTrue};
ghost use Rattle.md_assembly.specs.States.{state_of};
ghost use Rattle.md_notices.specs.Belonging.{IsForgotten};

use md_assembly::{MemberState, state_of};
use md_super::Superblock;

/// What a device is in the array that its own superblock tells of, as that superblock has it.
pub fn standing(own: &Superblock) -> MemberState
    ensures { result ≡ state_of own.now own.now }
{
    state_of(own, own)
}

/// Whether a device with this superblock is in sync in an array whose freshest superblock among the members is this:
/// so it belongs to them, and was not named.
pub fn is_forgotten(freshest: &Superblock, own: &Superblock) -> bool
    ensures { IsTrue result ↔ IsForgotten freshest.now own.now }
{
    own.set_uuid == freshest.set_uuid && state_of(freshest, own).is_in_sync()
}
