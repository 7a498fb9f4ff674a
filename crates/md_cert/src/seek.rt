// Two rising lists gone through side by side.
ghost use Rattle.std.specs.Prelude.{◌≡◌, ℕ, ◌<◌, ◌≤◌, length};
ghost use Rattle.std.specs.List.{AllWithin, HoldsAt};
ghost use Rattle.md_cert.specs.Tables.{IsTable, mask_of_chunk};

use crate::slots::Slot;
use crate::table::Row;

// The first row from `at` on whose chunk is not below this one.
pub(crate) fn seek_row(rows: &[Row], at: usize, chunk: u32) -> usize
    requires within { at ≤ length rows.now }
    requires below { AllWithin (λ r. r.chunk < chunk) rows.now 0 at }
    ensures within { result ≤ length rows.now }
    ensures below { AllWithin (λ r. r.chunk < chunk) rows.now 0 result }
    ensures from { result < length rows.now → HoldsAt (λ r. chunk ≤ r.chunk) rows.now result }
{
    let mut next = at;
    while next < rows.len() && rows[next].chunk < chunk {
        next += 1;
    }
    next
}

// The mask of a chunk, 0 where the table does not have it.
pub(crate) fn mask_at(rows: &[Row], at: usize, chunk: u32) -> u32
    requires table { IsTable rows.now }
    requires below { AllWithin (λ r. r.chunk < chunk) rows.now 0 at }
    requires from { at < length rows.now → HoldsAt (λ r. chunk ≤ r.chunk) rows.now at }
    ensures { result ≡ mask_of_chunk rows.now chunk }
{
    if at < rows.len() && rows[at].chunk == chunk {
        rows[at].mask
    } else {
        0
    }
}

// The first slot from `at` on whose chunk is not below this one.
pub(crate) fn seek_slot(slots: &[Slot], at: usize, chunk: u32) -> usize
    requires within { at ≤ length slots.now }
    requires below { AllWithin (λ s. s.chunk < chunk) slots.now 0 at }
    ensures within { result ≤ length slots.now }
    ensures below { AllWithin (λ s. s.chunk < chunk) slots.now 0 result }
    ensures from { result < length slots.now → HoldsAt (λ s. chunk ≤ s.chunk) slots.now result }
{
    let mut next = at;
    while next < slots.len() && slots[next].chunk < chunk {
        next += 1;
    }
    next
}
