// Rows: steps on a mirror with what each has to answer, and what stands on its devices in the end. A step that finds no memory
// leaves the mirror as it was, and answers as the row says when it is made again: tests/refused_memory refuses each call for memory.
use crate::checks::same_case;
use crate::steps::images::{Image, Testing, put_before};
use crate::steps::run::Run;
use crate::steps::shown::{Shown, Stored, stored_on};
use crate::steps::step::{Answer, Step};
use std::alloc::Global;
use std::process::Abort;
use std::test::Fail;

pub(crate) type Worked = (Step, Answer);

// What comes of one opening.
pub(crate) struct Chapter {
    // These come in, before the devices of the chapter before.
    pub(crate) images: &'static [Image],
    pub(crate) steps: &'static [&'static [Worked]],
    // Of each device. Where there are none, nothing is looked at.
    pub(crate) stored: &'static [Stored],
}

// What the mirror shows where a step found no memory: as before, but that a resync which did not end is to be made again.
fn after_refusal(step: Step, before: Shown) -> Shown {
    match step {
        Step::Resync => Shown {
            resynced: false,
            ..before
        },
        _ => before,
    }
}

// Makes a step. Where it found no memory, that is told, and it is made once more.
fn make_one(
    rt: &(impl Abort + Print),
    alloc: Global,
    run: &mut Run,
    step: Step,
) -> Result<Answer, Fail> {
    let before = run.shown_state();
    let answer = run.make(alloc, step)?;
    if !answer.lacks_memory() {
        return Ok(answer);
    }
    let wanted = after_refusal(step, before);
    same_case(rt, &"without memory", run.shown_state(), wanted);
    rt.println(step.call())?;
    run.make(alloc, step)
}

fn make_all(
    rt: &(impl Abort + Print),
    alloc: Global,
    run: &mut Run,
    steps: &[&[Worked]],
) -> Result<(), Fail> {
    for (part, steps) in steps.iter().enumerate() {
        for (at, (step, wanted)) in steps.iter().enumerate() {
            let answer = make_one(rt, alloc, run, *step)?;
            same_case(rt, &("part and step", part, at), answer, *wanted);
        }
    }
    Ok(())
}

pub(crate) fn expect_stored(
    rt: &impl Abort,
    alloc: Global,
    devices: &mut [Testing],
    stored: &[Stored],
) -> Result<(), Fail> {
    if stored.is_empty() {
        return Ok(());
    }
    same_case(rt, &"the devices", devices.len(), stored.len());
    for (k, (device, wanted)) in devices.iter_mut().zip(stored).enumerate() {
        let found = stored_on(alloc, device)?;
        same_case(rt, &("on device", k), found, *wanted);
    }
    Ok(())
}

// Leaves the devices.
pub(crate) fn play_on(
    rt: &(impl Abort + Print),
    alloc: Global,
    devices: Vec<Testing>,
    chapter: &Chapter,
) -> Result<Vec<Testing>, Fail> {
    let mut devices = devices;
    put_before(alloc, &mut devices, chapter.images)?;
    let mut run = Run::open(alloc, devices)?;
    let made = make_all(rt, alloc, &mut run, chapter.steps);
    let mut devices = run.into_devices();
    let stored = match made {
        Ok(()) => expect_stored(rt, alloc, &mut devices, chapter.stored),
        Err(fail) => Err(fail),
    };
    match stored {
        Ok(()) => Ok(devices),
        Err(fail) => {
            drop(devices);
            Err(fail)
        }
    }
}

// Plays the chapters one after the other.
pub(crate) fn play(
    rt: &(impl Abort + Print),
    alloc: Global,
    chapters: &[Chapter],
) -> Result<(), Fail> {
    let mut devices = Vec::new(alloc);
    for chapter in chapters {
        devices = play_on(rt, alloc, devices, chapter)?;
    }
    drop(devices);
    Ok(())
}

// Plays lists of chapters: each chapter of the first by itself, and those of each of the others one after the other.
pub(crate) fn play_all(
    rt: &(impl Abort + Print),
    alloc: Global,
    rows: &[&[Chapter]],
    lives: &[&[Chapter]],
) -> Result<(), Fail> {
    for row in rows {
        for k in 0..row.len() {
            play(rt, alloc, &row[k..k + 1])?;
        }
    }
    for life in lives {
        play(rt, alloc, life)?;
    }
    Ok(())
}
