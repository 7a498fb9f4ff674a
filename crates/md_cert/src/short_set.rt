// Whether a certificate shows that one round less is too few.
ghost use Rattle.std.specs.Prelude.{◌≡◌, ◌≢◌, ℕ, All, MatchBool, MatchOption};
ghost use Rattle.md_cert.specs.Assignments.{gives_any};
ghost use Rattle.md_cert.specs.Plans.{Certifies, ChunksRise};
ghost use Rattle.md_cert.specs.Sources.{has};
ghost use Rattle.md_cert.specs.Tables.{IsTable, mask_of_chunk};

use crate::plan::{Certificate, Plan};
use crate::seek::{mask_at, seek_row};
use crate::sources::source_count;
use crate::table::Row;

pub(crate) fn certifies(rows: &[Row], plan: &Plan, certificate: &Certificate) -> bool
    requires table { IsTable rows.now }
    requires rising { ChunksRise certificate.now.chunks }
    ensures { MatchBool result
        (Certifies rows.now plan.now certificate.now)
        (Certifies rows.now plan.now certificate.now → ⊥) }
{
    let chunks = certificate.chunks.as_slice();
    if plan.rounds == 0 {
        return certificate.rounds == 0 && chunks.is_empty();
    }
    if certificate.rounds != plan.rounds - 1 {
        return false;
    }
    match union_of(rows, chunks) {
        None => false,
        Some(mask) => u64::from(certificate.rounds) * u64::from(source_count(mask))
            < chunks.len() as u64,
    }
}

// The sources of some of the chunks, if each chunk has one.
fn union_of(rows: &[Row], chunks: &[u32]) -> Option<u32>
    requires table { IsTable rows.now }
    requires rising { ChunksRise chunks.now }
    ensures { let AllGiven = All (λ chunk. mask_of_chunk rows.now chunk ≢ 0) chunks.now in MatchOption result
        (AllGiven → ⊥)
        (λ mask. AllGiven × ((s : ℕ) → has mask s ≡ gives_any rows.now chunks.now s)) }
{
    let mut at = 0;
    let mut union = 0;
    for chunk in chunks {
        at = seek_row(rows, at, *chunk);
        let mask = mask_at(rows, at, *chunk);
        if mask == 0 {
            return None;
        }
        union |= mask;
    }
    Some(union)
}
