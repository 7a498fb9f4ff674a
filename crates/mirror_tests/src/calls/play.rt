// Rows: calls on a mirror with what each has to answer, and what they leave on its devices.
use crate::calls::call::{ANY, Answer, Call};
use crate::calls::left::{Left, has};
use crate::calls::members::{Member, Testing, Vary, devices_of, sound};
use crate::calls::run::Run;
use crate::checks::holds;
use std::alloc::Global;
use std::process::Abort;
use std::sync::Wait;
use std::test::Fail;
use std::thread::Threads;

pub(crate) type Worked = (Call, Answer);

#[derive(Clone, Copy)]
pub(crate) struct Row {
    pub(crate) members: &'static [Member],
    // What is other with the first one, for each of the numbers from the first one to before the last.
    pub(crate) vary: Vary,
    pub(crate) numbers: (u64, u64),
    pub(crate) calls: &'static [Worked],
    // Where there are some, the devices are opened again, and fail no more.
    pub(crate) again: &'static [Worked],
    // Of each device. Where there are none, nothing is looked at.
    pub(crate) left: &'static [Left],
}

pub(crate) const ROW: Row = Row {
    members: &[],
    vary: Vary::Nothing,
    numbers: (0, 1),
    calls: &[],
    again: &[],
    left: &[],
};

fn is_right(answer: Answer, wanted: Answer) -> bool {
    match (answer, wanted) {
        (Answer::Rebuilt(told), Answer::RebuiltIn(passes, orphans)) => {
            told.passes <= passes && told.orphans.0 == orphans
        }
        (Answer::Lists(runs, _, len), Answer::Lists(wanted, ANY, sectors)) => {
            runs == wanted && len == sectors
        }
        _ => answer == wanted,
    }
}

// A call that finds no memory is told of, and ends the row. A member that was to be rebuilt is not in sync then.
fn make_one<R: Abort + Print + Threads + Wait + Sync>(
    rt: &R,
    alloc: Global,
    run: &mut Run,
    call: Call,
) -> Result<Answer, Fail> {
    let answer = run.make(rt, alloc, call);
    if !answer.lacks_memory() {
        return Ok(answer);
    }
    if let Call::Rebuild(k)
    | Call::RebuildMeeting(k)
    | Call::RebuildPlanned(k)
    | Call::Salvage(k) = call
    {
        holds(rt, &"without memory", !run.is_in_sync(k));
    }
    rt.println(call.name())?;
    Err(Fail::new("no memory"))
}

fn make_all<R: Abort + Print + Threads + Wait + Sync>(
    rt: &R,
    alloc: Global,
    at: (usize, u64),
    run: &mut Run,
    calls: &[Worked],
) -> Result<(), Fail> {
    for (k, (call, wanted)) in calls.iter().enumerate() {
        let answer = make_one(rt, alloc, run, *call)?;
        holds(
            rt,
            &("row, number and call", at, k),
            is_right(answer, *wanted),
        );
    }
    Ok(())
}

// Leaves the devices.
fn play_on<R: Abort + Print + Threads + Wait + Sync>(
    rt: &R,
    alloc: Global,
    at: (usize, u64),
    devices: Vec<Testing>,
    calls: &[Worked],
) -> Result<Vec<Testing>, Fail> {
    let mut run = Run::open(alloc, devices)?;
    let made = make_all(rt, alloc, at, &mut run, calls);
    let devices = run.into_devices();
    match made {
        Ok(()) => Ok(devices),
        Err(fail) => {
            drop(devices);
            Err(fail)
        }
    }
}

fn expect_left(
    rt: &impl Abort,
    alloc: Global,
    at: (usize, u64),
    devices: Vec<Testing>,
    left: &[Left],
) -> Result<(), Fail> {
    let mut rest = left;
    for device in devices {
        let Some((wanted, others)) = rest.split_first() else {
            break;
        };
        let is_so = has(alloc, device, wanted)?;
        holds(rt, &("row, number and device", at, others.len()), is_so);
        rest = others;
    }
    holds(rt, &("the devices", at), rest.is_empty());
    Ok(())
}

fn play_one<R: Abort + Print + Threads + Wait + Sync>(
    rt: &R,
    alloc: Global,
    at: (usize, u64),
    row: &Row,
) -> Result<(), Fail> {
    let devices = devices_of(alloc, row.members, row.vary, at.1)?;
    let mut devices = play_on(rt, alloc, at, devices, row.calls)?;
    if !row.again.is_empty() {
        devices = sound(alloc, devices)?;
        devices = play_on(rt, alloc, at, devices, row.again)?;
    }
    expect_left(rt, alloc, at, devices, row.left)
}

pub(crate) fn play<R: Abort + Print + Threads + Wait + Sync>(
    rt: &R,
    alloc: Global,
    rows: &[Row],
) -> Result<(), Fail> {
    for (k, row) in rows.iter().enumerate() {
        for number in row.numbers.0..row.numbers.1 {
            play_one(rt, alloc, (k, number), row)?;
        }
    }
    Ok(())
}
