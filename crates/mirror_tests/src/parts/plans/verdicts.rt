// What the checker says of plans, worked out by hand.
ghost use Rattle.std.specs.Prelude.{◌≤◌, ◌^◌, length};

use crate::checks::same;
use crate::parts::plans::checked_plan::{table_of, verdict_with};
use md_cert::{Plan, Slot, Slots, Table, Verdict};
use std::alloc::{AllocError, Global};
use std::process::Abort;
use std::test::Fail;

// The slots of a plan, of a chunk, a source and a round each; how many rounds it has; of its certificate the rounds and the
// chunks; and what the checker has to say.
type Checked<'a> = (&'a [(u32, u8, u32)], u32, u32, &'a [u32], Verdict);

fn add_slots(list: &mut Vec<Slot>, slots: &[(u32, u8, u32)]) -> Result<(), AllocError> {
    for (chunk, source, round) in slots {
        list.push(Slot {
            chunk: *chunk,
            source: *source,
            round: *round,
        })?;
    }
    Ok(())
}

fn plan_of(alloc: Global, slots: &[(u32, u8, u32)], rounds: u32) -> Result<Plan, AllocError> {
    let mut list = Vec::new(alloc);
    add_slots(&mut list, slots)?;
    Ok(Plan {
        slots: Slots::from_vec(list),
        rounds,
    })
}

fn expect_judged(
    rt: &impl Abort,
    alloc: Global,
    table: &Table,
    checked: &Checked<'_>,
) -> Result<(), Fail> {
    let (slots, rounds, shown, short, wanted) = *checked;
    let plan = plan_of(alloc, slots, rounds)?;
    let verdict = verdict_with(alloc, table, &plan, shown, short);
    drop(plan);
    let verdict = verdict?;
    same(rt, &"the verdict", verdict, wanted);
    Ok(())
}

fn expect_all_judged(
    rt: &impl Abort,
    alloc: Global,
    table: &Table,
    cases: &[Checked<'_>],
) -> Result<(), Fail> {
    for checked in cases {
        expect_judged(rt, alloc, table, checked)?;
    }
    Ok(())
}

// The verdicts on plans for a table with these masks.
fn judges(rt: &impl Abort, alloc: Global, masks: &[u32], cases: &[Checked<'_>]) -> Result<(), Fail>
    requires { length masks.now ≤ 2 ^ 20 }
{
    let table = table_of(alloc, masks)?;
    let judged = expect_all_judged(rt, alloc, &table, cases);
    drop(table);
    judged
}

const THREE: [(u32, u8, u32); 3] = [(0, 0, 0), (1, 1, 0), (2, 0, 1)];

const OF_THREE: [Checked<'static>; 3] = [
    (&THREE, 2, 1, &[0, 1, 2], Verdict::Yes),
    (&THREE, 2, 1, &[0, 0, 1], Verdict::NotRising),
    (&THREE, 2, 2, &[0, 1, 2], Verdict::NotShort),
];

#[test]
fn checker_refuses_certificates(rt: HostRuntime) -> Result<(), Fail> {
    judges(&rt, rt.alloc(), &[3, 3, 3], &OF_THREE)
}

const REFUSALS: [Checked<'static>; 5] = [
    (&[(0, 1, 0), (1, 0, 0)], 1, 0, &[0], Verdict::Yes),
    (&[], 0, 0, &[], Verdict::Uncovered(0)),
    (
        &[(0, 0, 0), (1, 0, 0)],
        1,
        0,
        &[0],
        Verdict::DoubleSlot(0, 0),
    ),
    (
        &[(0, 1, 1), (1, 0, 0)],
        1,
        0,
        &[0],
        Verdict::RoundTooLate(0),
    ),
    (&[(0, 1, 0), (1, 1, 0)], 1, 0, &[0], Verdict::Forbidden(1)),
];

#[test]
fn checker_refusals(rt: HostRuntime) -> Result<(), Fail> {
    judges(&rt, rt.alloc(), &[3, 1], &REFUSALS)
}
