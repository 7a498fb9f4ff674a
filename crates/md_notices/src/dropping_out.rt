// Members that drop out.
ghost use Rattle.std.specs.Prelude.{◌≡◌};
ghost use Rattle.md_notices.specs.Dropping.{dropped_out};

use md_assembly::MemberState;

/// Whether a member dropped out that was in the first state before a command and is in the second after it.
pub fn dropped_out(before: MemberState, after: MemberState) -> bool
    ensures { result ≡ dropped_out before after }
{
    before.is_in_sync() && matches!(after, MemberState::Faulty)
}
