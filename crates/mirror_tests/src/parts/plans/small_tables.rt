// Small tables whose plans, certificates and orphans are known.
ghost use Rattle.std.specs.Prelude.{◌≤◌, ◌^◌, length};

use crate::checks::{holds, same};
use crate::parts::plans::checked_plan::{plan_masks, table_of, verdict_with};
use md_cert::{Plan, Planned, Slot, Table, Verdict};
use std::alloc::Global;
use std::process::Abort;
use std::test::Fail;

// The rounds of a plan and of its certificate, the certificate's chunks, and the orphans.
type Known<'a> = (u32, u32, &'a [u32], &'a [u32]);

fn expect_known(rt: &impl Abort, made: &Planned, known: &Known<'_>) {
    let (rounds, shown, short, orphans) = *known;
    let certificate = &made.certificate;
    same(rt, &"the rounds", made.plan.rounds, rounds);
    same(rt, &"the certificate's rounds", certificate.rounds, shown);
    holds(rt, &"its chunks", certificate.chunks.as_slice() == short);
    holds(rt, &"the orphans", made.orphans.as_slice() == orphans);
}

fn plans(rt: &impl Abort, alloc: Global, masks: &[u32], known: &Known<'_>) -> Result<(), Fail>
    requires { length masks.now ≤ 2 ^ 20 }
{
    let made = plan_masks(rt, alloc, masks)?;
    expect_known(rt, &made, known);
    drop(made);
    Ok(())
}

const MOVED: [Slot; 2] = [
    Slot {
        chunk: 0,
        source: 1,
        round: 0,
    },
    Slot {
        chunk: 1,
        source: 0,
        round: 0,
    },
];

fn expect_moved(rt: &impl Abort, plan: &Plan) {
    same(rt, &"the rounds", plan.rounds, 1);
    holds(rt, &"the slots", plan.slots.as_slice() == MOVED.as_slice());
}

#[test]
fn plan_needs_a_move(rt: HostRuntime) -> Result<(), Fail> {
    let made = plan_masks(&rt, rt.alloc(), &[3, 1])?;
    expect_moved(&rt, &made.plan);
    drop(made);
    Ok(())
}

#[test]
fn plan_short_set(rt: HostRuntime) -> Result<(), Fail> {
    plans(&rt, rt.alloc(), &[3, 3, 3], &(2, 1, &[0, 1, 2], &[]))
}

// The chunks of certificates for one round, and what the checker has to say.
const JUDGED: [(&[u32], Verdict); 3] = [
    (&[0, 1], Verdict::Yes),
    (&[0, 1, 2, 3], Verdict::Yes),
    (&[2, 3], Verdict::NotShort),
];

fn expect_judged(rt: &impl Abort, alloc: Global, table: &Table, plan: &Plan) -> Result<(), Fail> {
    same(rt, &"the rounds", plan.rounds, 2);
    for (short, wanted) in &JUDGED {
        let verdict = verdict_with(alloc, table, plan, 1, short)?;
        same(rt, &"the verdict", verdict, *wanted);
    }
    Ok(())
}

#[test]
fn plan_certificates(rt: HostRuntime) -> Result<(), Fail> {
    let masks = [1, 1, 3, 2];
    let table = table_of(rt.alloc(), &masks)?;
    let made = plan_masks(&rt, rt.alloc(), &masks)?;
    let judged = expect_judged(&rt, rt.alloc(), &table, &made.plan);
    drop(made);
    drop(table);
    judged
}

fn expect_rising(rt: &impl Abort, plan: &Plan) {
    let mut round = 0u32;
    for slot in plan.slots.as_slice() {
        holds(rt, &"the rounds rise", round <= slot.round);
        round = slot.round;
    }
}

fn gives_in_turn(rt: &impl Abort, alloc: Global, masks: &[u32]) -> Result<(), Fail>
    requires { length masks.now ≤ 2 ^ 20 }
{
    let made = plan_masks(rt, alloc, masks)?;
    expect_rising(rt, &made.plan);
    drop(made);
    Ok(())
}

// Chunks that the same sources have go to them in turn, so that a pass copies nearly the first ones first.
#[test]
fn rounds_rise_with_chunks(rt: HostRuntime) -> Result<(), Fail> {
    gives_in_turn(&rt, rt.alloc(), &[3, 3, 3, 3, 3, 3, 3, 3])?;
    gives_in_turn(&rt, rt.alloc(), &[7, 7, 7, 7, 7, 7, 7, 7, 7, 7])
}

#[test]
fn lone_orphan(rt: HostRuntime) -> Result<(), Fail> {
    plans(&rt, rt.alloc(), &[0], &(0, 0, &[], &[0]))
}

#[test]
fn rebuild_with_orphan(rt: HostRuntime) -> Result<(), Fail> {
    let known = (7, 6, [0, 1, 2, 4, 5, 6, 7].as_slice(), [3].as_slice());
    plans(&rt, rt.alloc(), &[1, 1, 1, 0, 1, 1, 1, 1], &known)
}
