// Whether chunks rise.
ghost use Rattle.std.specs.Prelude.{MatchBool};
ghost use Rattle.md_cert.specs.Plans.{ChunksRise, SlotsRise};

use crate::slots::Slot;

pub(crate) fn slots_rise(slots: &[Slot]) -> bool
    ensures { MatchBool result (SlotsRise slots.now) (SlotsRise slots.now → ⊥) }
{
    for i in 1..slots.len() {
        if slots[i].chunk <= slots[i - 1].chunk {
            return false;
        }
    }
    true
}

pub(crate) fn chunks_rise(chunks: &[u32]) -> bool
    ensures { MatchBool result (ChunksRise chunks.now) (ChunksRise chunks.now → ⊥) }
{
    for i in 1..chunks.len() {
        if chunks[i] <= chunks[i - 1] {
            return false;
        }
    }
    true
}
