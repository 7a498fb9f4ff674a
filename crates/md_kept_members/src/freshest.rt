// The bitmap of the freshest member.
ghost use Rattle.std.specs.Prelude.{◌<◌, length};
ghost use Rattle.md_super.specs.declared.superblock.Superblock.{Superblock};
ghost use Rattle.md_assembly.specs.Assembled.{IsFirstFreshest};
ghost use Rattle.md_kept_members.specs.Spares.{IsOfFreshest, superblocks_kept};

use crate::member::Member;
use md_bitmap::BitmapHeader;

/// The header of the member whose superblock had the greatest events when it was read or laid out, the
/// first listed on a tie.
pub fn freshest_header(members: &[Member]) -> BitmapHeader
    requires { 0 < length members.now }
    ensures { IsOfFreshest members.now result }
{
    let freshest = &members[freshest_of(members)];
    freshest.header
}

// The index of that member.
fn freshest_of(members: &[Member]) -> usize
    requires some { 0 < length members.now }
    ensures within { result < length members.now }
    ensures freshest { (v : Superblock) × IsFirstFreshest (superblocks_kept members.now) result v }
{
    let mut freshest = 0;
    for (i, member) in members.iter().enumerate() {
        let best = &members[freshest];
        if member.superblock.events > best.superblock.events {
            freshest = i;
        }
    }
    freshest
}
