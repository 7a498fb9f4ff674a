// A table planned and checked.
ghost use Rattle.std.specs.Prelude.{◌≡◌, ◌^◌, ◌≤◌, length, IfOk};

use crate::checks::same;
use md_cert::{Certificate, ChunkList, NoMemory, Plan, Planned, Table, Verdict, check};
use md_plan::plan;
use std::alloc::{AllocError, Global};
use std::process::Abort;
use std::test::Fail;

/// A table of the chunks from 0 on, with these masks.
pub(crate) fn table_of(alloc: Global, masks: &[u32]) -> Result<Table, NoMemory>
    requires { length masks.now ≤ 2 ^ 20 }
    ensures { IfOk result (λ table. length table ≡ length masks.now) }
{
    let mut table = Table::new(alloc);
    let mut chunk = 0u32;
    for mask in masks {
        table.push(chunk, *mask)?;
        chunk += 1;
    }
    Ok(table)
}

/// The plan of such a table, which the checker has accepted.
pub(crate) fn plan_masks(rt: &impl Abort, alloc: Global, masks: &[u32]) -> Result<Planned, Fail>
    requires { length masks.now ≤ 2 ^ 20 }
{
    let table = table_of(alloc, masks)?;
    let made = plan(alloc, &table)?;
    let accepted = verdict(alloc, &table, &made.plan, &made.certificate)?;
    same(rt, &"the verdict", accepted, Verdict::Yes);
    Ok(made)
}

/// What the checker says, with as much room as it asks for.
fn verdict(
    alloc: Global,
    table: &Table,
    plan: &Plan,
    certificate: &Certificate,
) -> Result<Verdict, AllocError> {
    let mut lent = vec![in alloc; 0u32; plan.rounds as usize]?;
    let verdict = check(table, plan, certificate, &mut lent);
    drop(lent);
    Ok(verdict)
}

/// The checker's verdict on a certificate of these chunks.
pub(crate) fn verdict_with(
    alloc: Global,
    table: &Table,
    plan: &Plan,
    rounds: u32,
    short: &[u32],
) -> Result<Verdict, AllocError> {
    let short = Vec::from_slice(alloc, short)?;
    let certificate = Certificate {
        rounds,
        chunks: ChunkList::from_vec(short),
    };
    let verdict = verdict(alloc, table, plan, &certificate);
    drop(certificate);
    verdict
}
