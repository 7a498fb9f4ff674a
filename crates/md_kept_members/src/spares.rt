// What is kept in memory of a new device that comes in as a spare.
ghost use Rattle.std.specs.Prelude.{◌≡◌};
ghost use Rattle.md_kept_members.specs.Spares.{kept_spare};

use crate::member::Member;
use md_assembly::MemberState;
use md_badblocks::BadSet;
use md_bitmap::{BitmapHeader, Marks};
use md_super::Superblock;
use std::alloc::Global;

/// What is kept of a device on which a spare was laid out with these. It takes no memory.
pub fn kept_spare(
    alloc: Global,
    superblock: Superblock,
    header: BitmapHeader,
    marks: Marks,
) -> Member
    ensures { result ≡ kept_spare superblock header marks }
{
    let offset = superblock.recovery_offset;
    Member {
        superblock,
        header,
        stored: marks,
        bad: BadSet::new(alloc),
        state: MemberState::Spare,
        due: false,
        offset,
        stored_offset: offset,
    }
}
