// The certificate of a bound.
ghost use Rattle.std.specs.Prelude.{◌≡◌, ◌≢◌, ◌-◌, [], IfOk};
ghost use Rattle.md_plan.specs.Certificates.{chunks_within};

use crate::bound::{Bound, has_only};
use md_cert::{Certificate, ChunkList, NoMemory, Row};
use std::alloc::Global;

// The chunks that only these sources may give, in the memory of a list that is done with.
fn collect_within(list: Vec<u32>, rows: &[Row], sources: u32) -> Result<Vec<u32>, NoMemory>
    ensures { IfOk result (λ v. v.items ≡ chunks_within sources rows.now) }
{
    let mut chunks = list;
    chunks.clear();
    for row in rows {
        if row.mask != 0 && has_only(row.mask, sources) {
            chunks.push(row.chunk)?;
        }
    }
    Ok(chunks)
}

// The certificate of a bound. A list that is done with gives its memory.
pub(crate) fn certificate_of(
    alloc: Global,
    list: Vec<u32>,
    rows: &[Row],
    bound: Bound,
) -> Result<Certificate, NoMemory>
    ensures rounds { IfOk result (λ c. c.rounds ≡ bound.rounds - 1) }
    ensures none { IfOk result (λ c. bound.rounds ≡ 0 → c.chunks ≡ []) }
    ensures chunks { IfOk result (λ c. bound.rounds ≢ 0
        → c.chunks ≡ chunks_within bound.sources rows.now) }
{
    if bound.rounds == 0 {
        return Ok(Certificate {
            rounds: 0,
            chunks: ChunkList::from_vec(Vec::new(alloc)),
        });
    }
    let chunks = collect_within(list, rows, bound.sources)?;
    Ok(Certificate {
        rounds: bound.rounds - 1,
        chunks: ChunkList::from_vec(chunks),
    })
}
