// All steps of a write in all orders, a few steps deep, from several points of a write on.
use crate::checks::same_case;
use crate::steps::expected::Expected;
use crate::steps::images::{Testing, copies_of};
use crate::steps::run::Run;
use crate::steps::step::{Answer, Step};
use example_members::{SMALL_DATA, small_member};
use md_device::MemDevice;
use std::alloc::Global;
use std::process::Abort;
use std::test::Fail;

const STEPS: [Step; 10] = [
    Step::Begin(8),
    Step::Begin(9),
    Step::Record(0),
    Step::Record(1),
    Step::StoreMarks(0),
    Step::StoreMarks(1),
    Step::WriteMember(0),
    Step::WriteMember(1),
    Step::Finish,
    Step::ClearIdle,
];

// The points from which the orders go on: the opening, one at which data may be written, and one at
// which they are written on both members.
const POINTS: [&[Step]; 3] = [
    &[],
    &[
        Step::Begin(8),
        Step::StoreMarks(0),
        Step::StoreMarks(1),
        Step::Record(0),
        Step::Record(1),
    ],
    &[
        Step::Begin(8),
        Step::StoreMarks(0),
        Step::StoreMarks(1),
        Step::Record(0),
        Step::Record(1),
        Step::WriteMember(0),
        Step::WriteMember(1),
    ],
];

const NEVER: u64 = u64::MAX;

// How many writes a device takes before all of them fail.
const LIMITS: [u64; 5] = [0, 1, 2, 3, NEVER];

fn are_members_right(run: &Run, expected: &Expected) -> bool {
    for (k, member) in expected.members.iter().enumerate() {
        if let Answer::Is(state, due, _) = run.member(k)
            && (state.is_in_sync() != member.in_sync || due != member.due)
        {
            return false;
        }
    }
    true
}

// Whether a device has the bytes of a request at sectors 8 and 9 of the array where it has to.
fn has_data(device: &MemDevice, has: [bool; 2]) -> bool {
    let bytes = device.bytes();
    for (start, has) in [
        (512 * (SMALL_DATA + 8), has[0]),
        (512 * (SMALL_DATA + 9), has[1]),
    ] {
        let want = if has { 0xa5 } else { 0 };
        if bytes.get(start as usize) != Some(&want) {
            return false;
        }
    }
    true
}

// Order `n`: its steps are the digits of the number, the last one first.
fn steps_of(n: u32) -> [Step; 4] {
    let mut rest = n;
    let mut steps = [Step::Finish; 4];
    for step in &mut steps {
        *step = STEPS[(rest % 10) as usize];
        rest /= 10;
    }
    steps
}

// Makes the steps on the mirror, and compares each answer and what the mirror shows then.
fn follow(
    rt: &impl Abort,
    alloc: Global,
    run: &mut Run,
    expected: &mut Expected,
    steps: &[Step],
    n: u32,
) -> Result<(), Fail> {
    for (at, step) in steps.iter().enumerate() {
        let answer = run.make(alloc, *step)?;
        same_case(rt, &(n, at), answer, expected.answer(*step));
        same_case(rt, &(n, at), run.shown_state(), expected.shown_state());
        same_case(rt, &(n, at), are_members_right(run, expected), true);
    }
    Ok(())
}

fn follow_both(
    rt: &impl Abort,
    alloc: Global,
    run: &mut Run,
    expected: &mut Expected,
    lead: &[Step],
    steps: &[Step],
    n: u32,
) -> Result<(), Fail> {
    follow(rt, alloc, run, expected, lead, n)?;
    follow(rt, alloc, run, expected, steps, n)
}

fn expect_data(rt: &impl Abort, devices: Vec<Testing>, expected: &Expected, n: u32) {
    for (device, member) in devices.into_iter().zip(expected.members) {
        let written = has_data(&device.into_inner(), member.has);
        same_case(rt, &n, written, true);
    }
}

fn play(
    rt: &impl Abort,
    alloc: Global,
    images: &[MemDevice],
    writes: [u64; 2],
    lead: &[Step],
    steps: &[Step],
    n: u32,
) -> Result<(), Fail> {
    let first = [writes[0].saturating_add(1), writes[1].saturating_add(1)];
    let devices = copies_of(alloc, images, &first)?;
    let mut run = Run::open(alloc, devices)?;
    let mut expected = Expected::at_opening(images.len(), 10, writes);
    let followed = follow_both(rt, alloc, &mut run, &mut expected, lead, steps, n);
    let devices = run.into_devices();
    expect_data(rt, devices, &expected, n);
    followed
}

// Plays the orders of so many steps from each of these points.
fn play_orders(
    rt: &impl Abort,
    alloc: Global,
    images: &[MemDevice],
    writes: [u64; 2],
    points: &[&[Step]],
    depth: usize,
) -> Result<(), Fail> {
    let orders = if depth < 4 { 1_000 } else { 10_000 };
    for n in 0..orders {
        let steps = steps_of(n);
        for start in points {
            play(rt, alloc, images, writes, start, &steps[..depth.min(4)], n)?;
        }
    }
    Ok(())
}

fn add_small(alloc: Global, images: &mut Vec<MemDevice>, number: u32) -> Result<(), Fail> {
    images.push(small_member(alloc, number)?)?;
    Ok(())
}

fn small_members(alloc: Global, numbers: &[u32]) -> Result<Vec<MemDevice>, Fail> {
    let mut images = Vec::new(alloc);
    for number in numbers {
        add_small(alloc, &mut images, *number)?;
    }
    Ok(images)
}

#[test]
fn every_order(rt: HostRuntime) -> Result<(), Fail> {
    let images = small_members(rt.alloc(), &[0, 1])?;
    let played = play_orders(&rt, rt.alloc(), &images, [NEVER; 2], &POINTS, 4);
    drop(images);
    played
}

#[test]
fn every_order_of_one_member(rt: HostRuntime) -> Result<(), Fail> {
    let images = small_members(rt.alloc(), &[1])?;
    let played = play_orders(&rt, rt.alloc(), &images, [NEVER; 2], &POINTS[..2], 4);
    drop(images);
    played
}

fn play_with_limits(rt: &impl Abort, alloc: Global, images: &[MemDevice]) -> Result<(), Fail> {
    for first in LIMITS {
        for second in LIMITS {
            play_orders(rt, alloc, images, [first, second], &POINTS, 3)?;
        }
    }
    Ok(())
}

#[test]
fn every_order_with_failing_writes(rt: HostRuntime) -> Result<(), Fail> {
    let images = small_members(rt.alloc(), &[0, 1])?;
    let played = play_with_limits(&rt, rt.alloc(), &images);
    drop(images);
    played
}
