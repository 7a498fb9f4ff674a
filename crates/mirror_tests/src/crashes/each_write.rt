// Lists of calls that crash at each of their writes in turn.
use crate::checks::holds;
use crate::crashes::calls::{Answer, Call};
use crate::crashes::content::Content;
use crate::crashes::images::{FILLING, blank, member};
use crate::crashes::judging::{judge, sorted_out};
use crate::crashes::run::{Opened, Run};
use example_members::copy_of;
use md_device::MemDevice;
use std::alloc::Global;
use std::fmt::Debug;
use std::process::Abort;
use std::sync::Wait;
use std::test::Fail;
use std::thread::Threads;

// Makes the calls up to the first that is refused, which has found the devices crashed. Answers whether they have.
fn follow<R: Abort + Threads + Wait + Sync>(
    rt: &R,
    alloc: Global,
    writes: u64,
    run: &mut Run,
    calls: &[Call],
    content: &mut Content,
) -> Result<bool, Fail> {
    for call in calls {
        let answer = run.make(rt, alloc, *call)?;
        let is_done = answer == Answer::Done;
        if let Call::Write(first, count, byte) = *call {
            content.write(first, count, byte, is_done);
        }
        if !is_done {
            let has_crashed = run.has_crashed(alloc)?;
            holds(rt, &(*call, answer, writes), has_crashed);
            return Ok(true);
        }
    }
    run.has_crashed(alloc)
}

// What is left of the images once the devices crash after so many writes, and whether they do.
fn crash_within<R: Abort + Threads + Wait + Sync>(
    rt: &R,
    alloc: Global,
    writes: u64,
    images: Vec<MemDevice>,
    calls: &[Call],
    content: &mut Content,
) -> Result<(bool, Vec<MemDevice>), Fail> {
    let (members, others) = sorted_out(alloc, images)?;
    match Run::open(alloc, members, others, writes)? {
        Opened::Run(mut run) => match follow(rt, alloc, writes, &mut run, calls, content) {
            Ok(has_crashed) => Ok((has_crashed, run.into_images()?)),
            Err(fail) => {
                run.end();
                Err(fail)
            }
        },
        Opened::Refused(images, _) => Ok((true, images)),
    }
}

fn expect_sound<R: Abort + Threads + Wait + Sync>(
    rt: &R,
    alloc: Global,
    at: &impl Debug,
    images: Vec<MemDevice>,
    content: &Content,
) -> Result<(), Fail> {
    let (images, others) = sorted_out(alloc, images)?;
    drop(others);
    judge(rt, alloc, at, images, content)
}

fn copies_of(alloc: Global, images: &[MemDevice]) -> Result<Vec<MemDevice>, Fail> {
    let mut copies = Vec::new(alloc);
    for image in images {
        copies.push(copy_of(alloc, image)?)?;
    }
    Ok(copies)
}

// More than the writes of any list.
const MOST: u64 = 1000;

// The calls crash at each write in turn, until they come to their end. What is left is judged each time.
fn crash_at_each<R: Abort + Threads + Wait + Sync>(
    rt: &R,
    alloc: Global,
    images: &[MemDevice],
    calls: &[Call],
    content: &Content,
) -> Result<(), Fail> {
    for writes in 0..MOST {
        let mut content = *content;
        let copies = copies_of(alloc, images)?;
        let (has_crashed, left) = crash_within(rt, alloc, writes, copies, calls, &mut content)?;
        expect_sound(rt, alloc, &(writes, calls), left, &content)?;
        if !has_crashed {
            return Ok(());
        }
    }
    Err(Fail::new("there is no end of writes"))
}

// The calls crash at each write in turn, and so do other calls on what is left each time.
fn crash_twice<R: Abort + Threads + Wait + Sync>(
    rt: &R,
    alloc: Global,
    images: &[MemDevice],
    calls: &[Call],
    then: &[Call],
) -> Result<(), Fail> {
    for writes in 0..MOST {
        let mut content = Content::filled_with(FILLING);
        let copies = copies_of(alloc, images)?;
        let (has_crashed, left) = crash_within(rt, alloc, writes, copies, calls, &mut content)?;
        let done = crash_at_each(rt, alloc, &left, then, &content);
        drop(left);
        done?;
        if !has_crashed {
            return Ok(());
        }
    }
    Err(Fail::new("there is no end of writes"))
}

fn images_of(alloc: Global, raid_disks: u32) -> Result<Vec<MemDevice>, Fail> {
    let mut images = Vec::new(alloc);
    images.push(member(alloc, 0, raid_disks)?)?;
    images.push(member(alloc, 1, raid_disks)?)?;
    images.push(blank(alloc, 2)?)?;
    Ok(images)
}

struct List {
    raid_disks: u32,
    calls: &'static [Call],
}

const WRITES: [Call; 3] = [Call::Write(8, 2, 2), Call::Write(24, 2, 3), Call::Stop];

const TAKEN_BACK: [Call; 7] = [
    Call::Fail(1),
    Call::Record,
    Call::Remove(1),
    Call::Write(16, 2, 3),
    Call::ReAdd(1),
    Call::Rebuild(1),
    Call::Stop,
];

const CHECKPOINTED: [Call; 9] = [
    Call::Fail(1),
    Call::Record,
    Call::Remove(1),
    Call::Write(16, 2, 3),
    Call::ReAdd(1),
    Call::Record,
    Call::Checkpoint(1),
    Call::Rebuild(1),
    Call::Stop,
];

const ADDED: [Call; 3] = [Call::Add(2), Call::Rebuild(2), Call::Stop];

const ADMITTED: [Call; 7] = [
    Call::Add(2),
    Call::Record,
    Call::Admit(2),
    Call::Record,
    Call::Checkpoint(2),
    Call::Rebuild(2),
    Call::Stop,
];

const SALVAGED: [Call; 3] = [Call::Add(2), Call::Salvage(2), Call::Stop];

const SALVAGED_AGAIN: [Call; 7] = [
    Call::Fail(1),
    Call::Record,
    Call::Remove(1),
    Call::Write(16, 2, 3),
    Call::ReAdd(1),
    Call::Salvage(1),
    Call::Stop,
];

const WRITTEN: [Call; 1] = [Call::Write(8, 2, 2)];

const RESYNCED: [Call; 1] = [Call::Resync];

const LISTS: [List; 7] = [
    List {
        raid_disks: 2,
        calls: &WRITES,
    },
    List {
        raid_disks: 2,
        calls: &TAKEN_BACK,
    },
    List {
        raid_disks: 2,
        calls: &CHECKPOINTED,
    },
    List {
        raid_disks: 3,
        calls: &ADDED,
    },
    List {
        raid_disks: 3,
        calls: &ADMITTED,
    },
    List {
        raid_disks: 3,
        calls: &SALVAGED,
    },
    List {
        raid_disks: 2,
        calls: &SALVAGED_AGAIN,
    },
];

fn crash_list<R: Abort + Threads + Wait + Sync>(
    rt: &R,
    alloc: Global,
    list: &List,
) -> Result<(), Fail> {
    let images = images_of(alloc, list.raid_disks)?;
    let done = crash_at_each(
        rt,
        alloc,
        &images,
        list.calls,
        &Content::filled_with(FILLING),
    );
    drop(images);
    done
}

#[test]
fn each_write(rt: HostRuntime) -> Result<(), Fail> {
    for list in &LISTS {
        crash_list(&rt, rt.alloc(), list)?;
    }
    Ok(())
}

#[test]
fn each_write_of_a_resync(rt: HostRuntime) -> Result<(), Fail> {
    let images = images_of(rt.alloc(), 2)?;
    let done = crash_twice(&rt, rt.alloc(), &images, &WRITTEN, &RESYNCED);
    drop(images);
    done
}
