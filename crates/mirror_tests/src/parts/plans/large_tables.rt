// Large tables, with the certificates that they have to have.
use crate::checks::{holds, same};
use crate::parts::plans::checked_plan::plan_masks;
use md_cert::Planned;
use std::alloc::{AllocError, Global};
use std::process::Abort;
use std::test::Fail;

const MOST_CHUNKS: usize = 1_048_576;

// Up to which chunk a table has which mask; the rounds of its plan; and how many chunks its certificate has at least.
type Large = (&'static [(usize, u32)], u32, usize);

const TABLES: [Large; 3] = [
    (&[(1_048_576, u32::MAX)], 32_768, 1_048_545),
    (&[(600_000, 1), (1_048_576, 3)], 600_000, 600_000),
    (&[(30, 1), (60, 3), (120, 6)], 40, 118),
];

fn add_masks(masks: &mut Vec<u32>, runs: &[(usize, u32)]) -> Result<(), AllocError> {
    for (end, mask) in runs {
        masks.resize(*end, *mask)?;
    }
    Ok(())
}

// The certificate has one round less.
fn expect_planned(rt: &impl Abort, made: &Planned, table: &Large) {
    let (runs, rounds, chunks) = *table;
    let certificate = &made.certificate;
    same(rt, &"the rounds", made.plan.rounds, rounds);
    let shown = certificate.rounds.saturating_add(1);
    same(rt, &"the certificate's rounds and one", shown, rounds);
    let list = certificate.chunks.as_slice();
    holds(rt, &"the certificate's chunks", list.len() >= chunks);
    // The certificate's chunks are those of the one source alone.
    if runs.len() == 2 {
        same(rt, &"how many", list.len(), chunks);
        same(rt, &"the first", list.first().copied(), Some(0));
        same(rt, &"the last", list.last().copied(), Some(599_999));
    }
}

fn plans(rt: &impl Abort, alloc: Global, masks: &[u32], table: &Large) -> Result<(), Fail> {
    if masks.len() > MOST_CHUNKS {
        return Err(Fail::new("more chunks than a table may have"));
    }
    let made = plan_masks(rt, alloc, masks)?;
    expect_planned(rt, &made, table);
    drop(made);
    Ok(())
}

fn plans_large(rt: &impl Abort, alloc: Global, table: &Large) -> Result<(), Fail> {
    let mut masks = Vec::new(alloc);
    add_masks(&mut masks, table.0)?;
    let are_planned = plans(rt, alloc, &masks, table);
    drop(masks);
    are_planned
}

#[test]
fn of_many_chunks(rt: HostRuntime) -> Result<(), Fail> {
    for table in &TABLES {
        plans_large(&rt, rt.alloc(), table)?;
    }
    Ok(())
}
