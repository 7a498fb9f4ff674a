// A mirror on which whole calls are made. Each `Run` is consistent.
ghost use Rattle.std.specs.Prelude.{◌≡◌, ◌%◌, length};
ghost use Rattle.md_array.specs.Consistency.{IsConsistent};

use crate::calls::call::{Answer, Call, NOT_MISSING, Shown};
use crate::calls::data::{Data, WHOLE};
use crate::calls::members::Testing;
use crate::calls::salvages::size_of;
use crate::calls::told::{plans_of, told_of};
use crate::gates::{Counting, Meeting, Silent};
use crate::open::open;
use md_array::Mirror;
use md_cert::Table;
use md_check::{CheckFault, check_array};
use md_copy::{RebuildFault, Rebuilt, rebuild, salvage, table};
use md_metadata::stop;
use md_read::{UnresyncedFault, read, read_unresynced};
use md_resync::resync;
use md_streams::Gate;
use md_write::write;
use std::alloc::Global;
use std::marker::Model;
use std::sync::Wait;
use std::test::Fail;
use std::thread::Threads;

// What the writes write.
pub(crate) const WRITTEN: u8 = 0xa5;

#[derive(Drop)]
pub(crate) struct Run {
    mirror: Mirror<Testing>,
    // The device that left last.
    left: Option<Testing>,
}

impl Model for Run {
    ghost use Rattle.md_array.specs.Consistency.{IsConsistent};

    ghost Value = { Unit {0} };

    ghost view = { λ _. tt };

    ghost invariant = { λ run. IsConsistent run.mirror };
}

// It says no more here than that the mirror stays consistent: that is all the proofs of a `Run` are to see.
fn give_unresynced(
    mirror: &mut Mirror<Testing>,
    sector: u64,
    bytes: &mut [u8],
) -> Result<(), UnresyncedFault>
    requires whole { length bytes.old % 512 ≡ 0 }
    requires sound { IsConsistent mirror.old }
    ensures { IsConsistent mirror.new }
{
    read_unresynced(mirror, sector, bytes)
}

impl Run {
    // The test fails where the devices make no mirror.
    pub(crate) fn open(alloc: Global, devices: Vec<Testing>) -> Result<Run, Fail> {
        let mirror = open(alloc, devices)?;
        Ok(Run { mirror, left: None })
    }

    pub(crate) fn into_devices(self) -> Vec<Testing> {
        let Run { mirror, .. } = self;
        mirror.into_devices()
    }

    pub(crate) fn is_in_sync(&self, k: usize) -> bool {
        k < self.mirror.members() && self.mirror.state(k).is_in_sync()
    }

    pub(crate) fn make<R: Threads + Wait + Sync>(
        &mut self,
        rt: &R,
        alloc: Global,
        call: Call,
    ) -> Answer {
        match call {
            Call::Begin(sector) => self.begin(sector),
            Call::Write(sector, count) => self.write(sector, count),
            Call::Read(sector, count, given, data) => self.read(sector, count, given, &data),
            Call::ReadUnresynced(sector, count, given, data) => {
                self.read_unresynced(sector, count, given, &data)
            }
            Call::Resync => self.resync(alloc),
            Call::Stop => self.stop(),
            Call::Check => answer_of(self.check(rt, alloc, &Silent)),
            Call::CheckCounted => self.check_counted(rt, alloc),
            Call::CheckMeeting => self.check_meeting(rt, alloc),
            Call::Fail(k) => self.fail(k),
            Call::Remove(k) => self.remove(k),
            Call::ReAdd => self.re_add(alloc),
            Call::Table(k) => self.table(alloc, k),
            Call::Rebuild(k) => self.rebuild(rt, alloc, k, &Silent),
            Call::RebuildMeeting(k) => self.rebuild_meeting(rt, alloc, k),
            Call::RebuildPlanned(k) => self.rebuild_planned(rt, alloc, k),
            Call::Salvage(k) => self.salvage(rt, alloc, k),
            Call::Events => Answer::Counting(self.mirror.events()),
            Call::Show => self.show(),
            Call::State(k) => self.state(k),
            Call::List(k) => self.list(k),
            Call::Lack(k) => self.lack(alloc, k),
        }
    }

    fn begin(&mut self, sector: u64) -> Answer {
        match self.mirror.begin(sector, &[WRITTEN; 512]) {
            Ok(request) => Answer::Begun(request.number()),
            Err(fault) => Answer::NotBegun(fault),
        }
    }

    fn write(&mut self, sector: u64, count: usize) -> Answer {
        let bytes = [WRITTEN; 4096];
        let Some(bytes) = bytes.get(..count.min(8) * 512) else {
            return Answer::NotCalled;
        };
        match write(&mut self.mirror, sector, bytes) {
            Ok(()) => Answer::Done,
            Err(fault) => Answer::NotBegun(fault),
        }
    }

    fn read(&mut self, sector: u64, count: usize, given: usize, data: &Data) -> Answer {
        let mut bytes = [0x99; WHOLE];
        let Some(bytes) = bytes.get_mut(..count.min(64) * 512) else {
            return Answer::NotCalled;
        };
        let answer = match read(&mut self.mirror, sector, bytes) {
            Ok(()) => Answer::Done,
            Err(fault) => Answer::NotRead(fault),
        };
        answer_of_read(answer, sector, bytes, given, data)
    }

    fn read_unresynced(&mut self, sector: u64, count: usize, given: usize, data: &Data) -> Answer {
        let mut bytes = [0x99; WHOLE];
        let Some(bytes) = bytes.get_mut(..count.min(64) * 512) else {
            return Answer::NotCalled;
        };
        let answer = match give_unresynced(&mut self.mirror, sector, bytes) {
            Ok(()) => Answer::Done,
            Err(fault) => Answer::NotReadUnresynced(fault),
        };
        answer_of_read(answer, sector, bytes, given, data)
    }

    fn resync(&mut self, alloc: Global) -> Answer {
        match resync(alloc, &mut self.mirror) {
            Ok(()) => Answer::Done,
            Err(fault) => Answer::NotResynced(fault),
        }
    }

    fn stop(&mut self) -> Answer {
        match stop(&mut self.mirror) {
            Ok(()) => Answer::Done,
            Err(fault) => Answer::NotStopped(fault),
        }
    }

    fn check<G: Gate + Sync, R: Threads + Sync>(
        &mut self,
        rt: &R,
        alloc: Global,
        gate: &G,
    ) -> Result<u32, CheckFault> {
        check_array(rt, alloc, &mut self.mirror, gate)
    }

    fn check_counted<R: Threads + Sync>(&mut self, rt: &R, alloc: Global) -> Answer {
        let gate = Counting::new();
        let answer = self.check(rt, alloc, &gate);
        Answer::Counted(answer, gate.sums())
    }

    fn check_meeting<R: Threads + Sync>(&mut self, rt: &R, alloc: Global) -> Answer {
        let gate = Meeting::new();
        let answer = self.check(rt, alloc, &gate);
        if answer.is_ok() && !gate.have_met() {
            return Answer::NotMet;
        }
        answer_of(answer)
    }

    fn fail(&mut self, k: usize) -> Answer {
        if k >= self.mirror.members() {
            return Answer::NotCalled;
        }
        match self.mirror.fail(k) {
            Ok(()) => Answer::Done,
            Err(fault) => Answer::NotFailed(fault),
        }
    }

    fn remove(&mut self, k: usize) -> Answer {
        if k >= self.mirror.members() {
            return Answer::NotCalled;
        }
        match self.mirror.remove(k) {
            Ok(device) => {
                self.left = Some(device);
                Answer::Done
            }
            Err(fault) => Answer::NotRemoved(fault),
        }
    }

    fn re_add(&mut self, alloc: Global) -> Answer {
        let Some(device) = self.left.take() else {
            return Answer::NotCalled;
        };
        match self.mirror.re_add(alloc, device) {
            Ok(k) => Answer::Joined(k),
            Err((device, fault)) => {
                drop(device);
                Answer::NotReAdded(fault)
            }
        }
    }

    fn table(&self, alloc: Global, k: usize) -> Answer {
        if k >= self.mirror.members() {
            return Answer::NotCalled;
        }
        match table(alloc, &self.mirror, k) {
            Ok(table) => {
                let offers = offers_of(&table);
                drop(table);
                Answer::Offers(offers)
            }
            Err(fault) => Answer::NotRebuilt(fault),
        }
    }

    fn rebuild<G: Gate + Sync, R: Threads + Wait + Sync>(
        &mut self,
        rt: &R,
        alloc: Global,
        k: usize,
        gate: &G,
    ) -> Answer {
        if k >= self.mirror.members() {
            return Answer::NotCalled;
        }
        rebuilt_answer(rebuild(rt, alloc, &mut self.mirror, k, gate))
    }

    fn rebuild_meeting<R: Threads + Wait + Sync>(
        &mut self,
        rt: &R,
        alloc: Global,
        k: usize,
    ) -> Answer {
        let gate = Meeting::new();
        let answer = self.rebuild(rt, alloc, k, &gate);
        match answer {
            Answer::Rebuilt(_) if !gate.have_met() => Answer::NotMet,
            _ => answer,
        }
    }

    fn rebuild_planned<R: Threads + Wait + Sync>(
        &mut self,
        rt: &R,
        alloc: Global,
        k: usize,
    ) -> Answer {
        if k >= self.mirror.members() {
            return Answer::NotCalled;
        }
        match rebuild(rt, alloc, &mut self.mirror, k, &Silent) {
            Ok(rebuilt) => {
                let passes = rebuilt.passes;
                let (first, second) = plans_of(&rebuilt);
                drop(rebuilt);
                Answer::Planned(passes, first, second)
            }
            Err(fault) => Answer::NotRebuilt(fault),
        }
    }

    fn salvage<R: Threads + Wait + Sync>(&mut self, rt: &R, alloc: Global, k: usize) -> Answer {
        if k >= self.mirror.members() {
            return Answer::NotCalled;
        }
        match salvage(rt, alloc, &mut self.mirror, k, &Silent) {
            Ok(told) => {
                let answer = Answer::Salvaged(size_of(&told.lost), size_of(&told.listed));
                drop(told);
                answer
            }
            Err(fault) => Answer::NotRebuilt(fault),
        }
    }

    fn show(&self) -> Answer {
        let mirror = &self.mirror;
        if mirror.members() != 2 {
            return Answer::NotCalled;
        }
        Answer::Shows(Shown {
            events: mirror.events(),
            marked: mirror.marks().count(),
            resynced: mirror.resynced(),
            halted: mirror.halted(),
            states: (mirror.state(0), mirror.state(1)),
        })
    }

    fn state(&self, k: usize) -> Answer {
        if k >= self.mirror.members() {
            return Answer::NotCalled;
        }
        Answer::Is(self.mirror.state(k))
    }

    fn list(&self, k: usize) -> Answer {
        if k >= self.mirror.members() {
            return Answer::NotCalled;
        }
        match self.mirror.bad(k).runs() {
            [] => Answer::Lists(0, 0, 0),
            [first, ..] => Answer::Lists(self.mirror.bad(k).runs().len(), first.start, first.len),
        }
    }

    fn lack(&self, alloc: Global, k: usize) -> Answer {
        if k >= self.mirror.members() {
            return Answer::NotCalled;
        }
        let Ok(missing) = self.mirror.missing(alloc, k) else {
            return Answer::NotTold;
        };
        let answer = Answer::Lacks(missing.count(), missing.next_marked(0));
        drop(missing);
        answer
    }
}

// The answer of a read, where the first of these sectors have these bytes.
fn answer_of_read(answer: Answer, sector: u64, bytes: &[u8], given: usize, data: &Data) -> Answer {
    let found = bytes.get(..given.min(64) * 512).unwrap_or(&[]);
    if data.is_in(found, sector as usize) {
        answer
    } else {
        Answer::Differs
    }
}

fn answer_of(checked: Result<u32, CheckFault>) -> Answer {
    match checked {
        Ok(count) => Answer::Counts(count),
        Err(fault) => Answer::NotChecked(fault),
    }
}

fn rebuilt_answer(rebuilt: Result<Rebuilt, RebuildFault>) -> Answer {
    match rebuilt {
        Ok(rebuilt) => {
            let told = told_of(&rebuilt);
            drop(rebuilt);
            Answer::Rebuilt(told)
        }
        Err(fault) => Answer::NotRebuilt(fault),
    }
}

// Of the array's 8 chunks.
fn offers_of(table: &Table) -> [u32; 8] {
    let mut offers = [NOT_MISSING; 8];
    for row in table.rows() {
        if let Some(place) = offers.get_mut(row.chunk as usize) {
            *place = row.mask;
        }
    }
    offers
}
