// Lives of an array of three: calls that a seed draws, a crash at a write that it draws, and then an opening of images that it
// draws, among them one of those in sync whose superblock is the freshest.
use crate::checks::{holds, same};
use crate::crashes::calls::{Answer, Call};
use crate::crashes::choosing::{Choice, Known, NAMES, choose};
use crate::crashes::content::Content;
use crate::crashes::dice::Dice;
use crate::crashes::images::{FILLING, SECTORS, blank, member, name_of};
use crate::crashes::judging::{agrees, judge};
use crate::crashes::run::{Opened, Run};
use example_members::copy_of;
use md_device::MemDevice;
use std::alloc::Global;
use std::env::{Env, VarError, var};
use std::process::Abort;
use std::sync::Wait;
use std::test::Fail;
use std::thread::Threads;

// What is known of a life. Its images are beside it.
#[derive(Clone, Copy)]
struct Life {
    seed: u64,
    crashes: usize,
    dice: Dice,
    content: Content,
    // The byte of the last write.
    byte: u8,
    known: Known,
}

const RAID_DISKS: u32 = 3;

fn images_of(alloc: Global) -> Result<Vec<MemDevice>, Fail> {
    let mut images = Vec::new(alloc);
    images.push(member(alloc, 0, RAID_DISKS)?)?;
    images.push(member(alloc, 1, RAID_DISKS)?)?;
    images.push(blank(alloc, 2)?)?;
    images.push(blank(alloc, 3)?)?;
    Ok(images)
}

// Copies of the images that are chosen.
fn copies_of(alloc: Global, images: &[MemDevice], choice: &Choice) -> Result<Vec<MemDevice>, Fail> {
    let mut copies = Vec::new(alloc);
    for image in images {
        if choice.has(name_of(image)) {
            copies.push(copy_of(alloc, image)?)?;
        }
    }
    Ok(copies)
}

fn part(
    images: Vec<MemDevice>,
    choice: &Choice,
    chosen: &mut Vec<MemDevice>,
    others: &mut Vec<MemDevice>,
) -> Result<(), Fail> {
    for image in images {
        if choice.has(name_of(&image)) {
            chosen.push(image)?;
        } else {
            others.push(image)?;
        }
    }
    Ok(())
}

// The images that are chosen, and the others.
fn part_from(
    alloc: Global,
    images: Vec<MemDevice>,
    choice: &Choice,
) -> Result<(Vec<MemDevice>, Vec<MemDevice>), Fail> {
    let (mut chosen, mut others) = (Vec::new(alloc), Vec::new(alloc));
    match part(images, choice, &mut chosen, &mut others) {
        Ok(()) => Ok((chosen, others)),
        Err(fail) => {
            drop(chosen);
            drop(others);
            Err(fail)
        }
    }
}

impl Life {
    fn of_seed(seed: u64) -> Life {
        Life {
            seed,
            crashes: 0,
            dice: Dice::of_seed(seed),
            content: Content::filled_with(FILLING),
            byte: 0,
            known: Known::new(),
        }
    }

    // A call, mostly one that makes sense.
    fn draw(&mut self, run: &Run) -> Call {
        let k = self.dice.below(run.members());
        let outside = run.outside_name(self.dice.below(NAMES));
        match self.dice.below(16) {
            0..=4 => self.draw_write(),
            5 => Call::Resync,
            6 => Call::Stop,
            7 => Call::Fail(k),
            8 => Call::Remove(run.first_unrecorded(k)),
            9 | 10 => Call::ReAdd(outside),
            11 => Call::Add(outside),
            _ => self.draw_rebuild(run.first_to_rebuild(k)),
        }
    }

    fn draw_rebuild(&mut self, k: usize) -> Call {
        match self.dice.below(4) {
            0 => Call::Admit(k),
            1 => Call::Checkpoint(k),
            2 => Call::Salvage(k),
            _ => Call::Rebuild(k),
        }
    }

    fn draw_write(&mut self) -> Call {
        let first = self.dice.below(SECTORS);
        let most = SECTORS.saturating_sub(first).min(8);
        let count = self.dice.below(most).saturating_add(1);
        self.byte = 1 + self.byte % 63;
        Call::Write(first, count, self.byte)
    }

    // What the call changes of what is known.
    fn note(&mut self, run: &Run, call: Call, answer: Answer) {
        match call {
            Call::Write(first, count, byte) if answer != Answer::NotCalled => {
                self.content
                    .write(first, count, byte, answer == Answer::Done);
            }
            Call::Add(name) if answer == Answer::Done => self.known.lay_out(name),
            _ => {}
        }
        self.known.tick(run);
    }

    // After a resync the members agree, and where no role is empty no other value comes back.
    fn take_resynced<R: Abort + Threads + Wait + Sync>(
        &mut self,
        rt: &R,
        alloc: Global,
        run: &mut Run,
    ) {
        let at = (self.seed, self.crashes);
        agrees(rt, alloc, &at, run, &self.content);
        let mut bytes = [0; 512 * SECTORS];
        if !run.is_degraded() && run.read(&mut bytes) {
            self.content.take_resynced(&bytes);
        }
    }

    // Makes calls until the devices crash, or a few of them.
    fn live<R: Abort + Threads + Wait + Sync>(
        &mut self,
        rt: &R,
        alloc: Global,
        run: &mut Run,
    ) -> Result<(), Fail> {
        self.known.tick(run);
        let mut next = (!self.dice.one_in(4)).then_some(Call::Resync);
        for _ in 0..16 {
            let call = next.take().unwrap_or_else(|| self.draw(run));
            if self.known.forbids(call) {
                continue;
            }
            let answer = run.make(rt, alloc, call)?;
            self.note(run, call, answer);
            if run.has_crashed(alloc)? {
                return Ok(());
            }
            match call {
                Call::Fail(_) if !self.dice.one_in(4) => next = Some(Call::Record),
                Call::Resync if answer == Answer::Done => self.take_resynced(rt, alloc, run),
                _ => {}
            }
        }
        Ok(())
    }

    // The images that are chosen are opened and live on until the devices crash.
    fn go_on<R: Abort + Threads + Wait + Sync>(
        &mut self,
        rt: &R,
        alloc: Global,
        images: Vec<MemDevice>,
        choice: &Choice,
    ) -> Result<Vec<MemDevice>, Fail> {
        let (chosen, others) = part_from(alloc, images, choice)?;
        let writes = self.dice.below(80) as u64;
        match Run::open(alloc, chosen, others, writes)? {
            Opened::Run(mut run) => {
                self.known.leave_out(choice, run.events());
                match self.live(rt, alloc, &mut run) {
                    Ok(()) => run.into_images(),
                    Err(fail) => {
                        run.end();
                        Err(fail)
                    }
                }
            }
            Opened::Refused(images, _) => Ok(images),
        }
    }

    fn crash_once<R: Abort + Threads + Wait + Sync>(
        &mut self,
        rt: &R,
        alloc: Global,
        images: Vec<MemDevice>,
    ) -> Result<Vec<MemDevice>, Fail> {
        let mut images = images;
        let choice = choose(alloc, &mut images, &mut self.known, &mut self.dice)?;
        let copies = copies_of(alloc, &images, &choice)?;
        let at = (self.seed, self.crashes);
        judge(rt, alloc, &at, copies, &self.content)?;
        self.crashes = self.crashes.saturating_add(1);
        self.go_on(rt, alloc, images, &choice)
    }
}

fn live_through<R: Abort + Threads + Wait + Sync>(
    rt: &R,
    alloc: Global,
    seed: u64,
    crashes: usize,
) -> Result<(), Fail> {
    let mut life = Life::of_seed(seed);
    let mut images = images_of(alloc)?;
    for _ in 0..crashes {
        images = life.crash_once(rt, alloc, images)?;
    }
    drop(images);
    Ok(())
}

const CRASHES: usize = 24;

// The number in a variable of the environment, or the usual one.
fn number<R: Env + Alloc>(rt: &R, name: &str, usual: u64) -> Result<u64, Fail> {
    match var(rt, name) {
        Ok(word) => Ok(word.parse()?),
        Err(VarError::NotPresent) => Ok(usual),
        Err(error) => Err(Fail::from(error)),
    }
}

// By tests/life_crashes more of them, from another seed on.
#[test]
fn lives(rt: HostRuntime) -> Result<(), Fail> {
    let first = number(&rt, "FIRST_LIFE", 1)?;
    let count = number(&rt, "LIVES", 16)?;
    for k in 0..count {
        live_through(&rt, rt.alloc(), first.wrapping_add(k), CRASHES)?;
    }
    Ok(())
}
