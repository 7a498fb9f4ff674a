// How far members are rebuilt.
ghost use Rattle.std.specs.Prelude.{◌≡◌, IfOk, map};
ghost use Rattle.md_kept_members.specs.Kept.{known_offset, with_known_offset};
ghost use Rattle.md_kept_members.specs.TakingBack.{admitted_member, lowered_member, recovering, member_says_of, with_offsets};

use crate::member::Member;
use crate::taking_back::recovering;
use md_assembly::MemberState;
use md_super::Superblock;
use std::alloc::{AllocError, Global};

/// The offset of a recovering member whose superblock is older than the last clearing of marks is 0 from now on.
pub fn drop_old_offsets(members: &mut [Member], cleared: u64)
    ensures { members.new ≡ map (with_known_offset cleared) members.old }
{
    for member in members.iter_mut() {
        drop_old_offset(member, cleared);
    }
}

fn drop_old_offset(member: &mut Member, cleared: u64)
    ensures { member.new ≡ with_known_offset cleared member.old }
{
    let offset = known_offset(member.state, &member.superblock, cleared);
    member.offset = offset;
    set_sure_offset(&mut member.superblock, offset);
}

fn set_sure_offset(own: &mut Superblock, offset: u64)
    ensures { own.new ≡ record own.old { recovery_offset = offset } }
{
    own.recovery_offset = offset;
}

/// The member is rebuilt up to `offset`, and its superblock is to have the offset `sure`.
pub fn set_offsets(member: &mut Member, offset: u64, sure: u64)
    ensures { member.new ≡ with_offsets offset sure member.old }
{
    member.offset = offset;
    set_sure_offset(&mut member.superblock, sure);
}

/// Whether the member is recovering and its superblock says that it has this sector of the array: as md_p.h has it, all before
/// recovery_offset is recovered, marked or not.
pub fn says_of(member: &Member, sector: u64) -> bool
    ensures { result ≡ member_says_of sector member.now }
{
    member.state.is_recovering() && sector < member.stored_offset
}

/// Data of the array are about to change from this sector on, and no recovering member's superblock is to say any more that it has
/// them: see `lower_offset`.
pub fn lower_offsets(members: &mut [Member], sector: u64)
    ensures { members.new ≡ map (lowered_member sector) members.old }
{
    for member in members.iter_mut() {
        lower_offset(member, sector);
    }
}

/// Data of the array are about to change from this sector on: a recovering member surely has no more than what is before
/// it. Where the superblock on its device says more, this has to be stored first.
pub fn lower_offset(member: &mut Member, sector: u64)
    ensures { member.new ≡ lowered_member sector member.old }
{
    if member.state.is_recovering() {
        member.due = says_of(member, sector) || member.due;
        let sure = member.superblock.recovery_offset.min(sector);
        set_sure_offset(&mut member.superblock, sure);
    }
}

fn known_offset(state: MemberState, own: &Superblock, cleared: u64) -> u64
    ensures { result ≡ known_offset cleared state own.now }
{
    if state.is_recovering() && own.events < cleared {
        0
    } else {
        own.recovery_offset
    }
}

/// The superblock of a spare that is admitted: it is recovering, and nothing of it is done.
pub fn admitted_superblock(alloc: Global, member: &Member) -> Result<Superblock, AllocError>
    ensures { IfOk result (λ own. own ≡ recovering 0 member.now.superblock) }
{
    let own = member.superblock.try_clone(alloc)?;
    Ok(recovering(own, 0))
}

/// The member was admitted in this role, with this superblock, which is stored.
pub fn note_admitted(member: &mut Member, role: u16, own: Superblock)
    requires { own ≡ recovering 0 member.old.superblock }
    ensures { member.new ≡ admitted_member role member.old }
{
    member.superblock = own;
    member.state = MemberState::Recovering(role);
    member.due = false;
    member.offset = 0;
    member.stored_offset = 0;
}
