// The laws of a bitmap that was put on the members. Their functions do nothing.
ghost use Rattle.std.specs.Prelude.{◌≡◌, ◌≤◌, ℕ, List, Some, slice_get, true};
ghost use Rattle.md_assembly.specs.Assembled.{IsAssembled};
ghost use Rattle.md_assembly.specs.declared.assembling.Assembly.{Assembly};
ghost use Rattle.md_kept_members.specs.OnDevices.Superblocks.{IsReadable};
ghost use Rattle.md_members.specs.Members.{IsReadMember};
ghost use Rattle.md_members.specs.declared.info.MemberInfo.{MemberInfo};
ghost use Rattle.md_super.specs.Merge.{merged};
ghost use Rattle.md_metadata.specs.declared.bitmap_grow.growth.Growth.{Growth};
ghost use Rattle.md_metadata.specs.Grow.AsItWas.{AreReadGrown, KeepsMemberData, ReadsGrown, StaysInSync, own_of};
ghost use Rattle.md_metadata.specs.Grow.Growth.{IsGrowth};
ghost use Rattle.md_metadata.specs.Grow.Stored.{IsStored, KeepsAllBeside, sectors_of};

use md_bitmap::{BitmapHeader, HEADER_BYTES};

/// The law that a member is read back. On an honest device it was read, and it got what it was to get, with this header: then
/// what is read there is that member, with the bitmap.
pub fn reads_back(header: &BitmapHeader)
    ensures { (infos : List MemberInfo) (chunk_bytes : ℕ) (g : Growth) (k : ℕ) (was read : MemberInfo) (old new : List ℕ)
        → g.header ≡ header.now → IsGrowth infos chunk_bytes g → slice_get infos k ≡ Some was → IsReadMember old true was
        → IsReadable (merged g.shared (own_of g was)) → IsStored g (own_of g was) old new → IsReadMember new true read → ReadsGrown g was read }
{
    let mut front = [0; HEADER_BYTES];
    header.encode(&mut front);
}

/// The law that its data are what they were, whichever write fails.
pub fn keeps_data()
    ensures { (infos : List MemberInfo) (chunk_bytes : ℕ) (g : Growth) (k : ℕ) (was : MemberInfo) (old new : List ℕ)
        → IsGrowth infos chunk_bytes g → slice_get infos k ≡ Some was → KeepsAllBeside g.start (sectors_of g) old new → KeepsMemberData was old new }
{}

/// The law that the array is what it was. Where the members are assembled that are read back, each of them is in sync as it was.
pub fn stays_in_sync()
    ensures { (infos reads : List MemberInfo) (chunk_bytes : ℕ) (g : Growth) (assembly : Assembly) (growth : IsGrowth infos chunk_bytes g)
        → AreReadGrown g infos reads → (assembled : IsAssembled reads assembly) → (k : ℕ) (was read : MemberInfo)
        → slice_get infos k ≡ Some was → slice_get reads k ≡ Some read → StaysInSync growth.freshest assembled.superblock was read }
{}
