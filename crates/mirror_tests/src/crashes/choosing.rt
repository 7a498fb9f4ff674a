// Which images are opened after a crash, and what is known of each device: which of them no opening may have any more, and which may
// be taken back.
use crate::crashes::calls::Call;
use crate::crashes::dice::Dice;
use crate::crashes::images::name_of;
use crate::crashes::run::Run;
use md_assembly::{AssembleFault, Assembly, MemberState, assemble};
use md_device::MemDevice;
use md_members::{MemberFault, MemberInfo, read_member};
use std::alloc::Global;
use std::test::Fail;

// How many devices there are.
pub(crate) const NAMES: usize = 4;

// By name. A device may be taken back while some role stayed empty since it was in sync. It is out of the law once an opening left it out
// while its events were above the array's, or while it was a spare or recovering.
#[derive(Clone, Copy)]
pub(crate) struct Known {
    now: u64,
    // When the array was last seen without an empty role, and each device in sync.
    full_at: u64,
    in_sync_at: [u64; NAMES],
    is_out: [bool; NAMES],
}

// The images to open, and the events of the others.
#[derive(Clone, Copy)]
pub(crate) struct Choice {
    has: [bool; NAMES],
    events: [u64; NAMES],
}

impl Choice {
    pub(crate) fn has(&self, name: usize) -> bool {
        self.has[name % NAMES]
    }
}

impl Known {
    pub(crate) fn new() -> Known {
        Known {
            now: 1,
            full_at: 1,
            in_sync_at: [0; NAMES],
            is_out: [false; NAMES],
        }
    }

    // What the mirror shows now.
    pub(crate) fn tick(&mut self, run: &Run) {
        self.now = self.now.saturating_add(1);
        if !run.is_degraded() {
            self.full_at = self.now;
        }
        for k in 0..run.members() {
            if let (Some(MemberState::InSync(_)), Some(name)) = (run.state(k), run.name(k)) {
                self.in_sync_at[name % NAMES] = self.now;
            }
        }
    }

    // The device was made a spare.
    pub(crate) fn lay_out(&mut self, name: usize) {
        self.is_out[name % NAMES] = false;
        self.in_sync_at[name % NAMES] = 0;
    }

    // Whether the law says nothing of the call.
    pub(crate) fn forbids(&self, call: Call) -> bool {
        match call {
            Call::ReAdd(name) => {
                let at = name % NAMES;
                self.is_out[at] || self.in_sync_at[at] < self.full_at
            }
            _ => false,
        }
    }

    // An opening had these images alone, and the array has so many events.
    pub(crate) fn leave_out(&mut self, choice: &Choice, events: u64) {
        for (name, is_out) in self.is_out.iter_mut().enumerate() {
            if !choice.has(name) && choice.events[name % NAMES] > events {
                *is_out = true;
            }
        }
    }
}

// What is read of an image.
fn read(alloc: Global, image: &mut MemDevice) -> Result<Option<MemberInfo>, Fail> {
    match read_member(alloc, image) {
        Ok(info) => Ok(Some(info)),
        Err(MemberFault::NoMemory) => Err(Fail::new("no memory")),
        Err(_) => Ok(None),
    }
}

// What is read of the images that are not out of the law, and their names.
type Found = (Vec<MemberInfo>, Vec<usize>);

fn find_devices(alloc: Global, images: &mut [MemDevice], known: &Known) -> Result<Found, Fail> {
    let (mut infos, mut names) = (Vec::new(alloc), Vec::new(alloc));
    for image in images {
        let name = name_of(image);
        if known.is_out[name % NAMES] {
            continue;
        }
        if let Some(info) = read(alloc, image)? {
            infos.push(info)?;
            names.push(name)?;
        }
    }
    Ok((infos, names))
}

// The index of the one with the most events.
fn freshest(infos: &[MemberInfo]) -> usize {
    let (mut best, mut most) = (0, 0);
    for (k, info) in infos.iter().enumerate() {
        if info.superblock.events > most {
            (best, most) = (k, info.superblock.events);
        }
    }
    best
}

// Of two that bear one number, the one with the fewer events.
fn older(infos: &[MemberInfo], i: usize, j: usize) -> usize {
    let events = |k: usize| infos.get(k).map_or(0, |info| info.superblock.events);
    if events(i) < events(j) { i } else { j }
}

// What the images make. One that no array can be made of beside the others is left out: a spare whose superblock is too far ahead, or
// one whose number was given out again.
fn assembly_of(alloc: Global, found: &mut Found, known: &mut Known) -> Result<Assembly, Fail> {
    for _ in 0..NAMES {
        let worst = match assemble(alloc, found.0.as_slice()) {
            Ok(assembly) => return Ok(assembly),
            Err(AssembleFault::NotEnough) => freshest(found.0.as_slice()),
            Err(AssembleFault::DoubleNumber(i, j)) => older(found.0.as_slice(), i, j),
            Err(fault) => return Err(Fail::from(fault)),
        };
        if worst >= found.0.len() || worst >= found.1.len() {
            break;
        }
        drop(found.0.remove(worst));
        let name = found.1.remove(worst);
        known.is_out[name % NAMES] = true;
    }
    Err(Fail::new("there is no array"))
}

// Draws which of these to open.
fn draw_choice(
    found: &Found,
    states: &[MemberState],
    known: &mut Known,
    dice: &mut Dice,
) -> Choice {
    let mut choice = Choice {
        has: [false; NAMES],
        events: [0; NAMES],
    };
    let mut most = 0;
    for (info, state) in found.0.iter().zip(states) {
        if state.is_in_sync() {
            most = most.max(info.superblock.events);
        }
    }
    let mut lacks_freshest = true;
    for ((info, state), name) in found.0.iter().zip(states).zip(&found.1) {
        let name = *name % NAMES;
        let events = info.superblock.events;
        let is_freshest = state.is_in_sync() && events == most;
        choice.events[name] = events;
        choice.has[name] = is_freshest && lacks_freshest || !dice.one_in(4);
        lacks_freshest = lacks_freshest && !is_freshest;
        if !choice.has[name] && matches!(state, MemberState::Spare | MemberState::Recovering(_)) {
            known.is_out[name] = true;
        }
    }
    choice
}

pub(crate) fn choose(
    alloc: Global,
    images: &mut [MemDevice],
    known: &mut Known,
    dice: &mut Dice,
) -> Result<Choice, Fail> {
    let mut found = find_devices(alloc, images, known)?;
    let choice = match assembly_of(alloc, &mut found, known) {
        Ok(assembly) => {
            let choice = draw_choice(&found, assembly.states.as_slice(), known, dice);
            drop(assembly);
            Ok(choice)
        }
        Err(fail) => Err(fail),
    };
    drop(found);
    choice
}
