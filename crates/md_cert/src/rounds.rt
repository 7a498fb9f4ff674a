// Whether each source gives one chunk a round, in the rounds of the plan.
ghost use Rattle.std.specs.Prelude.{◌≡◌, ℕ, ◌<◌, All, length, MatchOption};
ghost use Rattle.md_cert.specs.Plans.{IsRepeat, NoRepeatBelow};
ghost use Rattle.md_cert.specs.Verdicts.{IsFirstSlot, IsTooLate};

use crate::slots::Slot;
use crate::sources::has_source;

/// The turn of the first slot that has the source and the round of an earlier one. There is a word of
/// `lent` for each round, where the sources seen in it are noted.
pub(crate) fn first_double(slots: &[Slot], lent: &mut [u32]) -> Option<(u8, u32)>
    requires { All (λ s. s.source < 32) slots.now }
    ensures { let rounds = length lent.old in MatchOption result
        (NoRepeatBelow slots.now rounds (length slots.now))
        (λ turn. (at : ℕ) × IsRepeat slots.now rounds turn.0 turn.1 at × NoRepeatBelow slots.now rounds at) }
{
    for word in lent.iter_mut() {
        *word = 0;
    }
    for slot in slots {
        let round = slot.round as usize;
        if round < lent.len() {
            if has_source(lent[round], u32::from(slot.source)) {
                return Some((slot.source, slot.round));
            }
            lent[round] |= 1u32 << slot.source;
        }
    }
    None
}

/// The first chunk that is planned for a round past the last.
pub(crate) fn first_late(slots: &[Slot], rounds: u32) -> Option<u32>
    ensures { MatchOption result
        (All (λ s. s.round < rounds) slots.now)
        (IsFirstSlot (IsTooLate rounds) slots.now) }
{
    for slot in slots {
        if slot.round >= rounds {
            return Some(slot.chunk);
        }
    }
    None
}
