// A mirror of devices that crash together, and the devices that are in no mirror. Each `Run` is consistent.
ghost use Rattle.std.specs.Prelude.{◌≡◌, ◌<◌, ◌%◌, ℕ, length, true, false, IsTrue};
ghost use Rattle.md_array.specs.Consistency.{IsConsistent};
ghost use Rattle.md_array.specs.Steps.NoteResynced.{AreNoted};
ghost use Rattle.md_assembly.specs.States.{is_recovering};
ghost use Rattle.md_bitmap.specs.Marks.{is_set};
ghost use Rattle.md_kept_members.specs.View.{MemberView};
ghost use Rattle.md_state.specs.Steps.MakeClean.{IsIdle};
ghost use Rattle.md_state.specs.Members.{IsMember};

use crate::crashes::calls::{Answer, Call};
use crate::crashes::images::{DATA, SECTORS, name_of};
use crate::gates::Silent;
use md_array::{AddFault, BeginFault, Mirror, OpenFault, ReAddFault, RemoveFault};
use md_assembly::MemberState;
use md_bitmap::Marks;
use md_check::{CheckFault, check_array};
use md_copy::{rebuild, salvage};
use md_device::{CrashDevice, Device, Fuse, MemDevice};
use md_metadata::{stop, store_all_marks, store_other_records, store_records};
use md_read::read;
use md_resync::resync;
use md_write::write;
use std::alloc::Global;
use std::marker::Model;
use std::sync::Wait;
use std::test::Fail;
use std::thread::Threads;

pub(crate) type Crashing = CrashDevice<MemDevice>;

#[derive(Drop)]
pub(crate) struct Run {
    mirror: Mirror<Crashing>,
    fuse: Fuse,
    // The names of the members' devices.
    names: Vec<usize>,
    outside: Vec<MemDevice>,
}

impl Model for Run {
    ghost use Rattle.md_array.specs.Consistency.{IsConsistent};

    ghost Value = { Unit {0} };

    ghost view = { λ _. tt };

    ghost invariant = { λ run. IsConsistent run.mirror };
}

#[derive(Drop)]
pub(crate) enum Opened {
    Run(Run),
    // What is left of all devices.
    Refused(Vec<MemDevice>, OpenFault),
}

fn wrap_images(alloc: Global, fuse: &Fuse, images: Vec<MemDevice>) -> Result<Vec<Crashing>, Fail> {
    let mut devices = Vec::new(alloc);
    for image in images {
        let fuse = fuse.share()?;
        devices.push(CrashDevice::new(image, fuse, DATA))?;
    }
    Ok(devices)
}

fn names_of(alloc: Global, images: &[MemDevice]) -> Result<Vec<usize>, Fail> {
    let mut names = Vec::new(alloc);
    for image in images {
        names.push(name_of(image))?;
    }
    Ok(names)
}

fn put_back(devices: Vec<Crashing>, outside: &mut Vec<MemDevice>) -> Result<(), Fail> {
    for device in devices {
        outside.push(device.into_inner())?;
    }
    Ok(())
}

// These calls say no more here than that the mirror stays consistent: that is all the proofs of a `Run` are to see.
fn take_out(mirror: &mut Mirror<Crashing>, k: usize) -> Result<Crashing, RemoveFault>
    requires within { k < length mirror.old.array.members }
    requires sound { IsConsistent mirror.old }
    ensures { IsConsistent mirror.new }
{
    mirror.remove(k)
}

fn read_all(mirror: &mut Mirror<Crashing>, bytes: &mut [u8; 512 * SECTORS]) -> bool
    requires sound { IsConsistent mirror.old }
    ensures { IsConsistent mirror.new }
{
    read(mirror, 0, bytes).is_ok()
}

fn write_on(mirror: &mut Mirror<Crashing>, first: u64, bytes: &[u8]) -> Result<(), BeginFault>
    requires whole { length bytes.now % 512 ≡ 0 }
    requires sound { IsConsistent mirror.old }
    ensures { IsConsistent mirror.new }
{
    write(mirror, first, bytes)
}

fn take_back(
    mirror: &mut Mirror<Crashing>,
    alloc: Global,
    device: Crashing,
) -> Result<usize, (Crashing, ReAddFault)>
    requires sound { IsConsistent mirror.old }
    ensures { IsConsistent mirror.new }
{
    mirror.re_add(alloc, device)
}

fn take_in(
    mirror: &mut Mirror<Crashing>,
    alloc: Global,
    device: Crashing,
) -> Result<usize, (Crashing, AddFault)>
    requires sound { IsConsistent mirror.old }
    ensures { IsConsistent mirror.new }
{
    mirror.add(alloc, device)
}

impl Run {
    // A mirror of these images, whose devices crash after so many writes, beside others.
    pub(crate) fn open(
        alloc: Global,
        images: Vec<MemDevice>,
        outside: Vec<MemDevice>,
        writes: u64,
    ) -> Result<Opened, Fail> {
        let mut outside = outside;
        let fuse = Fuse::new(alloc, writes)?;
        let names = names_of(alloc, &images)?;
        let devices = wrap_images(alloc, &fuse, images)?;
        match Mirror::open(alloc, devices) {
            Ok(mirror) => Ok(Opened::Run(Run {
                mirror,
                fuse,
                names,
                outside,
            })),
            Err((devices, fault)) => {
                put_back(devices, &mut outside)?;
                Ok(Opened::Refused(outside, fault))
            }
        }
    }

    // All devices, as they are left.
    pub(crate) fn into_images(self) -> Result<Vec<MemDevice>, Fail> {
        let Run {
            mirror,
            fuse: _,
            names: _,
            mut outside,
        } = self;
        put_back(mirror.into_devices(), &mut outside)?;
        Ok(outside)
    }

    // Whether the devices have crashed: whether one more that shares their fuse does.
    pub(crate) fn has_crashed(&self, alloc: Global) -> Result<bool, Fail> {
        let sector = MemDevice::new(alloc, 1)?;
        let mut device = CrashDevice::new(sector, self.fuse.share()?, 0);
        let written = device.write(0, &[0; 512]);
        drop(device);
        Ok(written.is_err())
    }

    pub(crate) fn members(&self) -> usize {
        self.mirror.members()
    }

    pub(crate) fn state(&self, k: usize) -> Option<MemberState> {
        if k >= self.mirror.members() {
            return None;
        }
        Some(self.mirror.state(k))
    }

    // The name of member k's device.
    pub(crate) fn name(&self, k: usize) -> Option<usize> {
        self.names.get(k).copied()
    }

    // The name of a device that is in no mirror, one of them by this number.
    pub(crate) fn outside_name(&self, number: usize) -> usize {
        let count = self.outside.len().max(1);
        match self.outside.get(number % count) {
            Some(image) => name_of(image),
            None => 0,
        }
    }

    // The first member from this one on that is no part of the array, or this one.
    pub(crate) fn first_unrecorded(&self, k: usize) -> usize {
        for j in k..self.mirror.members() {
            if !self.mirror.state(j).is_recorded() {
                return j;
            }
        }
        k
    }

    // The first member from this one on that may be rebuilt, or this one.
    pub(crate) fn first_to_rebuild(&self, k: usize) -> usize {
        for j in k..self.mirror.members() {
            let state = self.mirror.state(j);
            if state.is_recorded() && !state.is_in_sync() {
                return j;
            }
        }
        k
    }

    // Whether a spare can be given a role.
    pub(crate) fn has_free_role(&self) -> bool {
        let mut taken = 0u64;
        for k in 0..self.mirror.members() {
            if self.mirror.state(k).is_active() {
                taken = taken.saturating_add(1);
            }
        }
        taken < u64::from(self.mirror.shared().raid_disks)
    }

    pub(crate) fn events(&self) -> u64 {
        self.mirror.events()
    }

    pub(crate) fn is_degraded(&self) -> bool {
        self.mirror.degraded()
    }

    // Drops the mirror: done here, that is proved once, and not at each exit of a test.
    pub(crate) fn end(self) {
        drop(self);
    }

    pub(crate) fn read(&mut self, bytes: &mut [u8; 512 * SECTORS]) -> bool {
        read_all(&mut self.mirror, bytes)
    }

    pub(crate) fn check<R: Threads + Sync>(
        &mut self,
        rt: &R,
        alloc: Global,
    ) -> Result<u32, CheckFault> {
        check_array(rt, alloc, &mut self.mirror, &Silent)
    }

    pub(crate) fn make<R: Threads + Wait + Sync>(
        &mut self,
        rt: &R,
        alloc: Global,
        call: Call,
    ) -> Result<Answer, Fail> {
        match call {
            Call::Write(first, count, byte) => Ok(self.write(first, count, byte)),
            Call::Resync => Ok(answer(resync(alloc, &mut self.mirror).is_ok())),
            Call::Stop => Ok(answer(stop(&mut self.mirror).is_ok())),
            Call::Fail(k) => Ok(self.fail(k)),
            Call::Record => Ok(self.record()),
            Call::Remove(k) => self.remove(k),
            Call::ReAdd(name) => self.re_add(alloc, name),
            Call::Add(name) => self.add(alloc, name),
            Call::Admit(k) => Ok(self.admit(alloc, k)),
            Call::Checkpoint(k) => self.checkpoint(alloc, k),
            Call::Rebuild(k) => Ok(self.rebuild(rt, alloc, k)),
            Call::Salvage(k) => Ok(self.salvage(rt, alloc, k)),
        }
    }

    fn write(&mut self, first: usize, count: usize, byte: u8) -> Answer {
        let bytes = [byte; 4096];
        let Some(bytes) = bytes.get(..count.min(8) * 512) else {
            return Answer::NotCalled;
        };
        match write_on(&mut self.mirror, first as u64, bytes) {
            Ok(()) => Answer::Done,
            // No device was used.
            Err(BeginFault::NotResynced | BeginFault::OutOfRange) => Answer::NotCalled,
            Err(_) => Answer::Refused,
        }
    }

    fn fail(&mut self, k: usize) -> Answer {
        if k >= self.mirror.members() {
            return Answer::NotCalled;
        }
        answer(self.mirror.fail(k).is_ok())
    }

    fn record(&mut self) -> Answer {
        if self.mirror.halted() {
            return Answer::Refused;
        }
        if store_records(&mut self.mirror).is_err() {
            return Answer::Refused;
        }
        answer(store_other_records(&mut self.mirror).is_ok())
    }

    fn remove(&mut self, k: usize) -> Result<Answer, Fail> {
        if k >= self.mirror.members() {
            return Ok(Answer::NotCalled);
        }
        match take_out(&mut self.mirror, k) {
            Ok(device) => {
                self.outside.push(device.into_inner())?;
                if k < self.names.len() {
                    self.names.remove(k);
                }
                Ok(Answer::Done)
            }
            Err(_) => Ok(Answer::Refused),
        }
    }

    // Takes the device with this name from those outside.
    fn take(&mut self, name: usize) -> Result<Option<Crashing>, Fail> {
        let fuse = self.fuse.share()?;
        for k in 0..self.outside.len() {
            if name_of(&self.outside[k]) == name {
                let image = self.outside.swap_remove(k);
                return Ok(Some(CrashDevice::new(image, fuse, DATA)));
            }
        }
        Ok(None)
    }

    fn re_add(&mut self, alloc: Global, name: usize) -> Result<Answer, Fail> {
        let Some(device) = self.take(name)? else {
            return Ok(Answer::NotCalled);
        };
        match take_back(&mut self.mirror, alloc, device) {
            Ok(_) => {
                self.names.push(name)?;
                Ok(Answer::Done)
            }
            Err((device, _)) => {
                self.outside.push(device.into_inner())?;
                Ok(Answer::Refused)
            }
        }
    }

    fn add(&mut self, alloc: Global, name: usize) -> Result<Answer, Fail> {
        let Some(device) = self.take(name)? else {
            return Ok(Answer::NotCalled);
        };
        match take_in(&mut self.mirror, alloc, device) {
            Ok(_) => {
                self.names.push(name)?;
                Ok(Answer::Done)
            }
            Err((device, _)) => {
                self.outside.push(device.into_inner())?;
                Ok(Answer::Refused)
            }
        }
    }

    fn admit(&mut self, alloc: Global, k: usize) -> Answer {
        if k >= self.mirror.members() || !self.mirror.state(k).is_spare() {
            return Answer::NotCalled;
        }
        answer(self.mirror.admit(alloc, k).is_ok())
    }

    // Of a member that was given nothing: the marks are stored, and then its superblock.
    fn checkpoint(&mut self, alloc: Global, k: usize) -> Result<Answer, Fail> {
        let mirror = &mut self.mirror;
        if mirror.halted() || !store_marks(mirror) {
            return Ok(Answer::Refused);
        }
        if k >= mirror.members() || !mirror.state(k).is_recovering() {
            return Ok(Answer::NotCalled);
        }
        if mirror.halted() || mirror.in_flight().is_some() || !mirror.resynced() {
            return Ok(Answer::NotCalled);
        }
        let none = Marks::none(alloc, mirror.chunks().count())?;
        let stored = store_offset(mirror, k, &none);
        drop(none);
        Ok(stored)
    }

    fn rebuild<R: Threads + Wait + Sync>(&mut self, rt: &R, alloc: Global, k: usize) -> Answer {
        if k >= self.mirror.members() {
            return Answer::NotCalled;
        }
        let rebuilt = rebuild(rt, alloc, &mut self.mirror, k, &Silent);
        let is_done = rebuilt.is_ok();
        drop(rebuilt);
        answer(is_done)
    }

    fn salvage<R: Threads + Wait + Sync>(&mut self, rt: &R, alloc: Global, k: usize) -> Answer {
        if k >= self.mirror.members() {
            return Answer::NotCalled;
        }
        let salvaged = salvage(rt, alloc, &mut self.mirror, k, &Silent);
        let is_done = salvaged.is_ok();
        drop(salvaged);
        answer(is_done)
    }
}

// Stores all marks on the members in sync, and answers whether they are.
#[tactic(auto, using(crate::proofs::Noted::noted_after))]
fn store_marks(mirror: &mut Mirror<Crashing>) -> bool
    requires sound { IsConsistent mirror.old }
    requires running { mirror.old.array.halted ≡ false }
    ensures noted { IsTrue result → AreNoted mirror.new.array }
    ensures sound { IsConsistent mirror.new }
{
    store_all_marks(mirror).is_ok()
}

// Stores the superblock of a recovering member to which none of these chunks was copied.
fn store_offset(mirror: &mut Mirror<Crashing>, k: usize, none: &Marks) -> Answer
    requires sound { IsConsistent mirror.old }
    requires within { k < length mirror.old.array.members }
    requires recovering { (m : MemberView) → IsMember mirror.old.array k m → is_recovering m.state ≡ true }
    requires idle { IsIdle mirror.old.array }
    requires resynced { mirror.old.array.resynced ≡ true }
    requires noted { AreNoted mirror.old.array }
    requires chunks { none.now.chunks ≡ mirror.old.array.marks.chunks }
    requires empty { (c : ℕ) → is_set none.now.bytes c ≡ false }
    ensures sound { IsConsistent mirror.new }
{
    answer(mirror.checkpoint(k, none).is_ok())
}

fn answer(is_done: bool) -> Answer {
    if is_done {
        Answer::Done
    } else {
        Answer::Refused
    }
}
