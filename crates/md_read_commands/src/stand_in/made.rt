// The superblock that stands in for one that can't be read.
ghost use Rattle.std.specs.Prelude.{◌≡◌, ◌↔◌, IfOk, IsTrue};
ghost use Rattle.md_read_commands.specs.StandIn.{HasLogOf, IsMadeHere, IsMadeOf, IsStandIn, made_uuid, map_by, offset_by, shown_by, with_entries, with_recovery};

use crate::stand_in::own::Own;
use crate::stand_in::put::StandIn;
use md_assembly::MemberState;
use md_super::{FEATURE_BAD_BLOCKS, FEATURE_RECOVERY_OFFSET, Superblock};
use std::alloc::{AllocError, Global};
use uuid::Uuid;

// The UUID of the device, in the superblocks that are made here. They stand in memory alone, so that no disk has it.
fn made_uuid() -> Uuid
    ensures { result ≡ made_uuid }
{
    Uuid::from_bytes(*b"tazmulja data-of")
}

/// Whether a superblock was made here.
pub(crate) fn is_made(own: &Superblock) -> bool
    ensures { IsTrue result ↔ IsMadeHere own.now }
{
    own.device_uuid == made_uuid()
}

/// Whether a member's superblock was made here, and by it none of its data count as the array's.
pub(crate) fn is_stand_in(state: MemberState, own: &Superblock) -> bool
    ensures { IsTrue result ↔ IsStandIn state own.now }
{
    state.is_recovering() && is_made(own)
}

/// The superblock of the device with this number: its own, as far as it can be read, or else as that of the member that shows the
/// array. By it the member lacks all, or is in sync, to be compared. What its log lists is kept, where the log stands as that
/// member's, unless its own superblock says that it lists nothing.
pub(crate) fn made_of(
    alloc: Global,
    freshest: &Superblock,
    own: Own,
    wanted: StandIn,
) -> Result<Superblock, AllocError>
    ensures offset { IfOk result (λ made. made.data_offset ≡ offset_by freshest.now own) }
    ensures made { IfOk result (IsMadeOf freshest.now own wanted) }
{
    let mut made = own_or_shown(alloc, freshest, own)?;
    made.device_uuid = made_uuid();
    made.dev_number = wanted.number;
    made.feature_map = with_recovery(made.feature_map, wanted.compared);
    made.recovery_offset = 0;
    Ok(made)
}

// The feature map of a member in sync, or of one that is recovering.
fn with_recovery(feature_map: u32, in_sync: bool) -> u32
    ensures { result ≡ with_recovery in_sync feature_map }
{
    if in_sync {
        feature_map & !FEATURE_RECOVERY_OFFSET
    } else {
        feature_map | FEATURE_RECOVERY_OFFSET
    }
}

// The member's own superblock, or what stands for it.
fn own_or_shown(alloc: Global, freshest: &Superblock, own: Own) -> Result<Superblock, AllocError>
    ensures offset { IfOk result (λ made. made.data_offset ≡ offset_by freshest.now own) }
    ensures log { IfOk result (HasLogOf (shown_by freshest.now own) (map_by freshest.now own)) }
{
    match own {
        Own::Read(own) => Ok(own),
        Own::Lost { may_list } => as_shown(alloc, freshest, may_list),
    }
}

// A copy of the superblock that shows the array. There may be no room behind the array's data.
fn as_shown(alloc: Global, freshest: &Superblock, may_list: bool) -> Result<Superblock, AllocError>
    ensures offset { IfOk result (λ made. made.data_offset ≡ freshest.now.data_offset) }
    ensures log { IfOk result (HasLogOf freshest.now (with_entries may_list freshest.now.feature_map)) }
{
    let mut made = freshest.try_clone(alloc)?;
    made.data_size = made.size;
    made.feature_map = with_entries(made.feature_map, may_list);
    Ok(made)
}

// The feature map of a member whose log, where there is one, has entries or not.
fn with_entries(feature_map: u32, lists: bool) -> u32
    ensures { result ≡ with_entries lists feature_map }
{
    if lists {
        feature_map | FEATURE_BAD_BLOCKS
    } else {
        feature_map & !FEATURE_BAD_BLOCKS
    }
}
