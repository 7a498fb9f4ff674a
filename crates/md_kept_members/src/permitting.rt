// The roles in which a chunk may be read.
ghost use Rattle.std.specs.Prelude.{◌≡◌, ◌↔◌, ◌<◌, ℕ, true};
ghost use Rattle.std.specs.Int.{bit_at, div_ceil};
ghost use Rattle.md_assembly.specs.States.{is_in_sync_as};
ghost use Rattle.md_kept_members.specs.Permitting.{IsPermittedAs, IsServedAs, ListsAny, Serves};

use crate::member::Member;
use crate::own_fields::is_write_mostly;
use md_assembly::MemberState;
use md_bitmap::Chunks;

/// The roles in which a chunk may be read on one of the members, as bits of a word: those of members that
/// are not write-mostly, and of the others where there is none.
pub fn permitted_roles(members: &[Member], chunks: Chunks, chunk: u32) -> u32
    requires { chunk < div_ceil chunks.size chunks.sectors }
    ensures { (role : ℕ) → role < 32 → (bit_at result role ≡ 1) ↔ IsPermittedAs members.now chunks chunk role }
{
    let roles = served_roles(members, chunks, chunk, false);
    if roles != 0 {
        return roles;
    }
    served_roles(members, chunks, chunk, true)
}

// The roles of the members that serve the chunk, of those that are write-mostly or of the others.
fn served_roles(members: &[Member], chunks: Chunks, chunk: u32, mostly: bool) -> u32
    requires { chunk < div_ceil chunks.size chunks.sectors }
    ensures { (role : ℕ) → role < 32 → (bit_at result role ≡ 1) ↔ IsServedAs members.now chunks chunk mostly role }
{
    let mut roles = 0;
    for member in members {
        if is_write_mostly(&member.superblock) == mostly {
            roles |= role_to_read(member, chunks, chunk);
        }
    }
    roles
}

// The bit of the member's role, where the chunk may be read on it.
fn role_to_read(member: &Member, chunks: Chunks, chunk: u32) -> u32
    requires { chunk < div_ceil chunks.size chunks.sectors }
    ensures { (role : ℕ) → role < 32 → (bit_at result role ≡ 1) ↔ Serves chunks chunk role member.now }
{
    if lists_any(member, chunks, chunk) {
        return 0;
    }
    role_in_sync(member.state)
}

/// The bit of the role in which a member in this state is in sync; none where it isn't, or where a word has no such bit.
pub fn role_in_sync(state: MemberState) -> u32
    ensures { (role : ℕ) → role < 32 → (bit_at result role ≡ 1) ↔ (is_in_sync_as role state ≡ true) }
{
    let MemberState::InSync(role) = state else {
        return 0;
    };
    if role >= 32 {
        return 0;
    }
    1 << u32::from(role)
}

/// Whether a sector of the chunk is listed as bad. No list has sectors from 2^54 on.
pub fn lists_any(member: &Member, chunks: Chunks, chunk: u32) -> bool
    requires { chunk < div_ceil chunks.size chunks.sectors }
    ensures { (result ≡ true) ↔ ListsAny chunks chunk member.now }
{
    if member.bad.runs().is_empty() {
        return false;
    }
    let (start, sectors) = chunks.range(chunk);
    let Some(first) = member.superblock.data_offset.checked_add(start) else {
        return false;
    };
    member.bad.meets(first, sectors)
}
