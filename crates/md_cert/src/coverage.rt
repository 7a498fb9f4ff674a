// Whether a plan has each chunk of a table, from a source that may give it.
ghost use Rattle.std.specs.Prelude.{◌≡◌, ◌≢◌, ◌<◌, ◌≤◌, true, All, length, MatchBool, MatchOption};
ghost use Rattle.std.specs.List.{AllWithin, HoldsAt};
ghost use Rattle.md_cert.specs.Plans.{IsPlanned, SlotsRise};
ghost use Rattle.md_cert.specs.Sources.{has};
ghost use Rattle.md_cert.specs.Tables.{IsTable, mask_of_chunk};
ghost use Rattle.md_cert.specs.Verdicts.{IsFirstChunk, IsFirstSlot, IsForbidden, IsUncovered};

use crate::seek::{mask_at, seek_row, seek_slot};
use crate::slots::Slot;
use crate::sources::has_source;
use crate::table::Row;

/// The first chunk that is planned from a source that may not give it.
pub(crate) fn first_forbidden(rows: &[Row], slots: &[Slot]) -> Option<u32>
    requires table { IsTable rows.now }
    requires rising { SlotsRise slots.now }
    ensures { MatchOption result
        (All (λ s. has (mask_of_chunk rows.now s.chunk) s.source ≡ true) slots.now)
        (IsFirstSlot (IsForbidden rows.now) slots.now) }
{
    let mut at = 0;
    for slot in slots {
        at = seek_row(rows, at, slot.chunk);
        let mask = mask_at(rows, at, slot.chunk);
        if !has_source(mask, u32::from(slot.source)) {
            return Some(slot.chunk);
        }
    }
    None
}

/// The first chunk that some source may give and that no slot has.
pub(crate) fn first_uncovered(rows: &[Row], slots: &[Slot]) -> Option<u32>
    requires table { IsTable rows.now }
    requires rising { SlotsRise slots.now }
    ensures { MatchOption result
        (All (λ r. r.mask ≢ 0 → IsPlanned slots.now r.chunk) rows.now)
        (IsFirstChunk (IsUncovered slots.now) rows.now) }
{
    let mut at = 0;
    for row in rows {
        at = seek_slot(slots, at, row.chunk);
        if row.mask != 0 && !is_of(slots, at, row.chunk) {
            return Some(row.chunk);
        }
    }
    None
}

// Whether the slot at an index is of this chunk, which is then the chunk's only slot.
fn is_of(slots: &[Slot], at: usize, chunk: u32) -> bool
    requires rising { SlotsRise slots.now }
    requires below { AllWithin (λ s. s.chunk < chunk) slots.now 0 at }
    requires from { at < length slots.now → HoldsAt (λ s. chunk ≤ s.chunk) slots.now at }
    ensures { MatchBool result (IsPlanned slots.now chunk) (IsPlanned slots.now chunk → ⊥) }
{
    at < slots.len() && slots[at].chunk == chunk
}
