// The marks of members.
ghost use Rattle.std.specs.Prelude.{◌≡◌, ◌↔◌, ℕ, IsTrue, true, length, IfOk};
ghost use Rattle.md_bitmap.specs.Marks.{is_set};
ghost use Rattle.md_kept_members.specs.Members.{NeedsMarks};
ghost use Rattle.md_kept_members.specs.Remembering.{HaveChunks, IsMarkedIn};

use crate::member::Member;
use md_bitmap::Marks;
use md_members::accepted;
use std::alloc::{AllocError, Global};

/// Whether every chunk counts as marked on a member in sync, since its bitmap is not accepted.
pub fn needs_marks(member: &Member) -> bool
    ensures { IsTrue result ↔ NeedsMarks member.now }
{
    if !member.state.is_in_sync() {
        return false;
    }
    !accepted(&member.superblock, &member.header)
}

/// The marks of all members in sync.
pub fn united_marks(alloc: Global, members: &[Member], chunks: u32) -> Result<Marks, AllocError>
    requires { HaveChunks members.now chunks }
    ensures chunks { IfOk result (λ marks. marks.chunks ≡ chunks) }
    ensures bits { IfOk result (λ marks. (c : ℕ) → (is_set marks.bytes c ≡ true) ↔ IsMarkedIn members.now (length members.now) c) }
{
    let mut marks = Marks::none(alloc, chunks)?;
    for member in members {
        if member.state.is_in_sync() {
            marks.unite(&member.stored);
        }
    }
    Ok(marks)
}
