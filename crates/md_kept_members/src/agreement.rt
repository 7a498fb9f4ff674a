// Whether members in sync hold the same.
ghost use Rattle.std.specs.Prelude.{◌≡◌, ◌↔◌, ◌⊎◌, ◌<◌, ℕ, true, false, count_by, nat_le};
ghost use Rattle.md_assembly.specs.States.{is_in_sync};
ghost use Rattle.md_bitmap.specs.Marks.{is_set};
ghost use Rattle.md_kept_members.specs.Remembering.{IsAloneIn};

use crate::member::Member;
use md_bitmap::Marks;

/// Whether members in sync hold the same: no chunk is marked, or they are one.
pub fn is_resynced(members: &[Member], marks: &Marks) -> bool
    requires { (c : ℕ) → is_set marks.now.bytes c ≡ true → c < marks.now.chunks }
    ensures { (result ≡ true) ↔ (((c : ℕ) → is_set marks.now.bytes c ≡ false) ⊎ IsAloneIn members.now) }
{
    if marks.next_marked(0).is_none() {
        return true;
    }
    is_alone(members)
}

fn is_alone(members: &[Member]) -> bool
    ensures { result ≡ nat_le (count_by (λ m. is_in_sync m.state) members.now) 1 }
{
    members
        .iter()
        .filter(|member| member.state.is_in_sync())
        .count()
        <= 1
}
