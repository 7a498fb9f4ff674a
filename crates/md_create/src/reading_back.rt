// What is read of a device on which a member was laid out.
ghost use Rattle.std.specs.Prelude.{◌≡◌, ◌≤◌, ◌+◌, ◌*◌, List, ℕ, length, true};
ghost use Rattle.md_members.specs.Members.{IsReadMember, RefusesMember};
ghost use Rattle.md_members.specs.declared.info.MemberInfo.{MemberInfo};
ghost use Rattle.md_members.specs.declared.fault.MemberFault.{MemberFault};
ghost use Rattle.md_members.specs.declared.fault.MemberFault.TheVariants.{NoMemory};
ghost use Rattle.md_create.specs.Layout.{IsLaidOutAs};
ghost use Rattle.md_create.specs.ReadBack.{ReadsBack};

use crate::params::NewMember;
use md_bitmap::HEADER_BYTES;

/// The law that a member is read back. Of an honest device on which this member was laid out
/// `read_member` gives this member, and where the device has all of its data and no read fails, it
/// refuses it only where memory ran out. This function does nothing.
pub fn reads_back(member: &NewMember)
    ensures same { (old new : List ℕ) (info : MemberInfo) → IsLaidOutAs old member.now new → IsReadMember new true info → ReadsBack member.now info }
    ensures taken { (old new : List ℕ) (fault : MemberFault) → IsLaidOutAs old member.now new → 512 * (2048 + member.now.superblock.data_size) ≤ length new → RefusesMember new true (λ _. ⊥) fault → fault ≡ NoMemory }
{
    let mut block = [0; 4096];
    member.superblock.encode(&mut block);
    let mut front = [0; HEADER_BYTES];
    member.header.encode(&mut front);
}
