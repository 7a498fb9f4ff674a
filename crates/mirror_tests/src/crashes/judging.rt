// What a crash left is opened again, and has to be a mirror that holds what was written.
use crate::checks::{holds, same};
use crate::crashes::calls::{Answer, Call};
use crate::crashes::content::Content;
use crate::crashes::images::SECTORS;
use crate::crashes::run::{Opened, Run};
use md_assembly::MemberState;
use md_device::MemDevice;
use md_members::{MemberFault, read_member};
use std::alloc::Global;
use std::fmt::Debug;
use std::process::Abort;
use std::sync::Wait;
use std::test::Fail;
use std::thread::Threads;

// Whether a member is read from the image.
pub(crate) fn is_accepted(alloc: Global, image: &mut MemDevice) -> Result<bool, Fail> {
    match read_member(alloc, image) {
        Ok(info) => {
            drop(info);
            Ok(true)
        }
        Err(MemberFault::NoMemory) => Err(Fail::new("no memory")),
        Err(_) => Ok(false),
    }
}

// Sorts images: those that are accepted, and the others.
pub(crate) fn sorted_out(
    alloc: Global,
    images: Vec<MemDevice>,
) -> Result<(Vec<MemDevice>, Vec<MemDevice>), Fail> {
    let (mut accepted, mut others) = (Vec::new(alloc), Vec::new(alloc));
    for image in images {
        let mut image = image;
        if is_accepted(alloc, &mut image)? {
            accepted.push(image)?;
        } else {
            others.push(image)?;
        }
    }
    Ok((accepted, others))
}

// The array is resynced: it holds what it may hold, and its members agree.
pub(crate) fn agrees<R: Abort + Threads + Wait + Sync>(
    rt: &R,
    alloc: Global,
    at: &impl Debug,
    run: &mut Run,
    content: &Content,
) {
    let mut bytes = [0; 512 * SECTORS];
    holds(rt, &("a read", at), run.read(&mut bytes));
    same(rt, &("what is read", at), content.first_wrong(&bytes), None);
    same(rt, &("a check", at), run.check(rt, alloc), Ok(0));
}

// The array agrees once members that lack data are rebuilt.
fn rebuilds<R: Abort + Threads + Wait + Sync>(
    rt: &R,
    alloc: Global,
    at: &impl Debug,
    run: &mut Run,
    content: &Content,
) -> Result<(), Fail> {
    for k in 0..run.members() {
        let state = run.state(k);
        let is_spare = state == Some(MemberState::Spare);
        let is_recovering = matches!(state, Some(MemberState::Recovering(_)));
        if is_recovering || is_spare && run.has_free_role() {
            let answer = run.make(rt, alloc, Call::Rebuild(k))?;
            same(rt, &("a rebuild", k, state, at), answer, Answer::Done);
            agrees(rt, alloc, at, run, content);
        }
    }
    Ok(())
}

fn expect_sound<R: Abort + Threads + Wait + Sync>(
    rt: &R,
    alloc: Global,
    at: &impl Debug,
    run: &mut Run,
    content: &Content,
) -> Result<(), Fail> {
    let answer = run.make(rt, alloc, Call::Resync)?;
    same(rt, &("a resync", at), answer, Answer::Done);
    agrees(rt, alloc, at, run, content);
    rebuilds(rt, alloc, at, run, content)?;
    let answer = run.make(rt, alloc, Call::Stop)?;
    same(rt, &("a stop", at), answer, Answer::Done);
    Ok(())
}

// The images make such an array.
pub(crate) fn judge<R: Abort + Threads + Wait + Sync>(
    rt: &R,
    alloc: Global,
    at: &impl Debug,
    images: Vec<MemDevice>,
    content: &Content,
) -> Result<(), Fail> {
    match Run::open(alloc, images, Vec::new(alloc), u64::MAX)? {
        Opened::Run(mut run) => {
            let sound = expect_sound(rt, alloc, at, &mut run, content);
            run.end();
            sound
        }
        Opened::Refused(images, fault) => {
            drop(images);
            holds(rt, &("an opening", fault, at), false);
            Ok(())
        }
    }
}
