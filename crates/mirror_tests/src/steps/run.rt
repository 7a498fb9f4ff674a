// A mirror on which steps are made. Each `Run` is consistent, and its requests are in flight.
ghost use Rattle.std.specs.Prelude.{◌≡◌, ◌%◌, ◌<◌, length, IfOk};
ghost use Rattle.md_array.specs.Consistency.{IsConsistent};
ghost use Rattle.md_inflight.specs.Requests.Pending.{PendingView};
ghost use Rattle.md_state.specs.Requests.{IsPending};

use crate::open::open;
use crate::steps::images::{Image, Testing, device_of, new_device, used_device};
use crate::steps::shown::{Shown, listed_in, stored_on, what_shows};
use crate::steps::step::{Answer, Step};
use md_array::{AddFault, BeginFault, Mirror, Pending, ReAddFault, RemoveFault, StoreFault};
use md_kept_members::log_room;
use md_metadata::stop;
use md_resync::{ResyncFault, resync};
use md_write::write;
use std::alloc::Global;
use std::marker::Model;
use std::mem::swap;
use std::test::Fail;

pub(crate) const SECTOR: [u8; 512] = [0xa5; 512];

#[derive(Drop)]
pub(crate) struct Run {
    mirror: Mirror<Testing>,
    // The request at hand, which is the one that began last, and the one before it.
    request: Option<Pending<'static>>,
    earlier: Option<Pending<'static>>,
    // The device that left last, or was not taken back last.
    left: Option<Testing>,
}

impl Model for Run {
    ghost use Rattle.std.specs.Prelude.{IfSome};
    ghost use Rattle.md_array.specs.Consistency.{IsConsistent};
    ghost use Rattle.md_state.specs.Requests.{IsPending};

    ghost Value = { Unit {0} };

    ghost view = { λ _. tt };

    ghost invariant = { λ run. IsConsistent run.mirror × IfSome run.request (IsPending run.mirror.array) × IfSome run.earlier (IsPending run.mirror.array) };
}

// These calls say no more here than what a `Run` keeps: that is all its proofs are to see.
fn take_back(
    mirror: &mut Mirror<Testing>,
    alloc: Global,
    device: Testing,
) -> Result<usize, (Testing, ReAddFault)>
    requires { IsConsistent mirror.old }
    ensures sound { IsConsistent mirror.new }
    ensures pending { (p : PendingView) → IsPending mirror.old.array p → IsPending mirror.new.array p }
{
    mirror.re_add(alloc, device)
}

fn take_in(
    mirror: &mut Mirror<Testing>,
    alloc: Global,
    device: Testing,
) -> Result<usize, (Testing, AddFault)>
    requires { IsConsistent mirror.old }
    ensures sound { IsConsistent mirror.new }
    ensures pending { (p : PendingView) → IsPending mirror.old.array p → IsPending mirror.new.array p }
{
    mirror.add(alloc, device)
}

fn take_out(mirror: &mut Mirror<Testing>, k: usize) -> Result<Testing, RemoveFault>
    requires within { k < length mirror.old.array.members }
    requires sound { IsConsistent mirror.old }
    ensures sound { IsConsistent mirror.new }
    ensures pending { (p : PendingView) → IsPending mirror.old.array p → IsPending mirror.new.array p }
{
    mirror.remove(k)
}

fn begin_on<'a>(
    mirror: &mut Mirror<Testing>,
    sector: u64,
    bytes: &'a [u8],
) -> Result<Pending<'a>, BeginFault>
    requires whole { length bytes.now % 512 ≡ 0 }
    requires sound { IsConsistent mirror.old }
    ensures sound { IsConsistent mirror.new }
    ensures begun { IfOk result (IsPending mirror.new.array) }
    ensures pending { (p : PendingView) → IsPending mirror.old.array p → IsPending mirror.new.array p }
{
    mirror.begin(sector, bytes)
}

fn record_on(mirror: &mut Mirror<Testing>, k: usize) -> Result<(), StoreFault>
    requires within { k < length mirror.old.array.members }
    requires sound { IsConsistent mirror.old }
    ensures sound { IsConsistent mirror.new }
    ensures pending { (p : PendingView) → IsPending mirror.old.array p → IsPending mirror.new.array p }
{
    mirror.record(k)
}

fn resync_all(mirror: &mut Mirror<Testing>, alloc: Global) -> Result<(), ResyncFault>
    requires sound { IsConsistent mirror.old }
    ensures sound { IsConsistent mirror.new }
    ensures pending { (p : PendingView) → IsPending mirror.old.array p → IsPending mirror.new.array p }
{
    resync(alloc, mirror)
}

impl Run {
    // The test fails where the devices make no mirror.
    pub(crate) fn open(alloc: Global, devices: Vec<Testing>) -> Result<Run, Fail> {
        let mirror = open(alloc, devices)?;
        Ok(Run {
            mirror,
            request: None,
            earlier: None,
            left: None,
        })
    }

    pub(crate) fn shown_state(&self) -> Shown {
        what_shows(&self.mirror)
    }

    pub(crate) fn into_devices(self) -> Vec<Testing> {
        let Run { mirror, .. } = self;
        mirror.into_devices()
    }

    pub(crate) fn make(&mut self, alloc: Global, step: Step) -> Result<Answer, Fail> {
        match step {
            Step::Begin(sector) => Ok(self.begin(sector, &SECTOR)),
            Step::BeginNothing => Ok(self.begin(8, &[])),
            Step::Record(k) => Ok(self.record(k)),
            Step::StoreMarks(k) => Ok(self.store_marks(k)),
            Step::WriteMember(k) => Ok(self.write_member(k)),
            Step::Finish => Ok(self.finish()),
            Step::Turn => Ok(self.turn()),
            Step::ClearIdle => Ok(self.clear_idle()),
            Step::Write(sector) => Ok(self.write(sector)),
            Step::Resync => Ok(self.resync(alloc)),
            Step::Stop => Ok(self.stop()),
            Step::Fail(k) => Ok(self.fail(k)),
            Step::Remove(k) => Ok(self.remove(k)),
            Step::ReAdd => Ok(self.re_add_left(alloc)),
            Step::Bring(image, also) => self.bring(alloc, &Image { also, ..*image }),
            Step::BringZeros(sectors) => self.bring_zeros(alloc, sectors),
            Step::Add(sectors, fails) => self.add(alloc, sectors, fails),
            Step::AddUsed => self.add_used(alloc),
            Step::Admit => Ok(self.admit_last(alloc)),
            Step::NoteBad(k, chunk) => Ok(self.note_bad(alloc, k, chunk)),
            Step::StoreLog(k) => Ok(self.store_log(k)),
            Step::Show => Ok(Answer::Shows(self.shown_state())),
            Step::Member(k) => Ok(self.member(k)),
            Step::Lack(k) => Ok(self.lack(alloc, k)),
            Step::List(k) => Ok(self.list(k)),
            Step::Permit(chunk) => Ok(self.permit(chunk)),
            Step::Entry(number) => Ok(Answer::Role(self.mirror.shared().role_of(number))),
            Step::Left => self.devices_left(alloc),
        }
    }

    fn begin(&mut self, sector: u64, bytes: &'static [u8]) -> Answer
        requires whole { length bytes.now % 512 ≡ 0 }
    {
        match begin_on(&mut self.mirror, sector, bytes) {
            Ok(request) => {
                let number = request.number();
                self.earlier = self.request.replace(request);
                Answer::Begun(number)
            }
            Err(fault) => Answer::NotBegun(fault),
        }
    }

    fn record(&mut self, k: usize) -> Answer {
        if k >= self.mirror.members() {
            return Answer::NotCalled;
        }
        match record_on(&mut self.mirror, k) {
            Ok(()) => Answer::Done,
            Err(fault) => Answer::NotStored(fault),
        }
    }

    fn store_marks(&mut self, k: usize) -> Answer {
        if k >= self.mirror.members() {
            return Answer::NotCalled;
        }
        match self.mirror.store_marks(k, 0) {
            Ok(()) => Answer::Done,
            Err(fault) => Answer::NotStored(fault),
        }
    }

    fn write_member(&mut self, k: usize) -> Answer {
        if k >= self.mirror.members() {
            return Answer::NotCalled;
        }
        let Some(mut request) = self.request.take() else {
            return Answer::NotCalled;
        };
        let result_of = self.mirror.write_member(&mut request, k);
        self.request = Some(request);
        match result_of {
            Ok(()) => Answer::Done,
            Err(fault) => Answer::NotWritten(fault),
        }
    }

    fn finish(&mut self) -> Answer {
        let Some(request) = self.request.take() else {
            return Answer::NotCalled;
        };
        if let Some(earlier) = &self.earlier {
            if earlier.number() == request.number() {
                return Answer::NotCalled;
            }
        }
        match self.mirror.finish(request) {
            Ok(()) => Answer::Done,
            Err((request, fault)) => {
                self.request = Some(request);
                Answer::NotFinished(fault)
            }
        }
    }

    fn turn(&mut self) -> Answer {
        swap(&mut self.request, &mut self.earlier);
        Answer::Done
    }

    fn clear_idle(&mut self) -> Answer {
        if self.mirror.chunks().count() <= 1 {
            return Answer::NotCalled;
        }
        match self.mirror.clear_idle(1) {
            Ok(()) => Answer::Done,
            Err(fault) => Answer::NotCleared(fault),
        }
    }

    fn write(&mut self, sector: u64) -> Answer {
        match write(&mut self.mirror, sector, &SECTOR) {
            Ok(()) => Answer::Done,
            Err(fault) => Answer::NotBegun(fault),
        }
    }

    fn resync(&mut self, alloc: Global) -> Answer {
        match resync_all(&mut self.mirror, alloc) {
            Ok(()) => Answer::Done,
            Err(fault) => Answer::NotResynced(fault),
        }
    }

    fn stop(&mut self) -> Answer {
        match stop(&mut self.mirror) {
            Ok(()) => Answer::Done,
            Err(fault) => Answer::NotStopped(fault),
        }
    }

    fn fail(&mut self, k: usize) -> Answer {
        if k >= self.mirror.members() {
            return Answer::NotCalled;
        }
        match self.mirror.fail(k) {
            Ok(()) => Answer::Done,
            Err(fault) => Answer::NotFailed(fault),
        }
    }

    fn remove(&mut self, k: usize) -> Answer {
        if k >= self.mirror.members() {
            return Answer::NotCalled;
        }
        match take_out(&mut self.mirror, k) {
            Ok(device) => {
                self.left = Some(device);
                Answer::Done
            }
            Err(fault) => Answer::NotRemoved(fault),
        }
    }

    fn re_add_left(&mut self, alloc: Global) -> Answer {
        match self.left.take() {
            Some(device) => self.re_add(alloc, device),
            None => Answer::NotCalled,
        }
    }

    fn re_add(&mut self, alloc: Global, device: Testing) -> Answer {
        match take_back(&mut self.mirror, alloc, device) {
            Ok(k) => Answer::Joined(k),
            Err((device, fault)) => {
                self.left = Some(device);
                Answer::NotReAdded(fault)
            }
        }
    }

    fn bring(&mut self, alloc: Global, image: &Image) -> Result<Answer, Fail> {
        let device = device_of(alloc, image)?;
        Ok(self.re_add(alloc, device))
    }

    fn bring_zeros(&mut self, alloc: Global, sectors: u64) -> Result<Answer, Fail> {
        let device = new_device(alloc, sectors, 0)?;
        Ok(self.re_add(alloc, device))
    }

    fn add(&mut self, alloc: Global, sectors: u64, fails: u64) -> Result<Answer, Fail> {
        let device = new_device(alloc, sectors, fails)?;
        Ok(self.add_device(alloc, device))
    }

    fn add_used(&mut self, alloc: Global) -> Result<Answer, Fail> {
        let device = used_device(alloc, &[0x5a; 512])?;
        Ok(self.add_device(alloc, device))
    }

    fn add_device(&mut self, alloc: Global, device: Testing) -> Answer {
        match take_in(&mut self.mirror, alloc, device) {
            Ok(k) => Answer::Joined(k),
            Err((device, fault)) => {
                drop(device);
                Answer::NotAdded(fault)
            }
        }
    }

    fn admit_last(&mut self, alloc: Global) -> Answer {
        let members = self.mirror.members();
        if members == 0 {
            return Answer::NotCalled;
        }
        let last = members - 1;
        if !self.mirror.state(last).is_spare() {
            return Answer::NotCalled;
        }
        match self.mirror.admit(alloc, last) {
            Ok(()) => Answer::Done,
            Err(fault) => Answer::NotAdmitted(fault),
        }
    }

    fn note_bad(&mut self, alloc: Global, k: usize, chunk: u32) -> Answer {
        let mirror = &self.mirror;
        if k >= mirror.members() || !mirror.state(k).is_in_sync() || !mirror.resynced() {
            return Answer::NotCalled;
        }
        if chunk >= mirror.chunks().count() {
            return Answer::NotCalled;
        }
        match self.mirror.note_bad(alloc, k, chunk) {
            Ok(()) => Answer::Done,
            Err(fault) => Answer::NotNoted(fault),
        }
    }

    fn store_log(&mut self, k: usize) -> Answer {
        let mirror = &self.mirror;
        if k >= mirror.members() || !mirror.state(k).is_in_sync() {
            return Answer::NotCalled;
        }
        if mirror.bad(k).entries_needed() > log_room(mirror.own(k)) {
            return Answer::NotCalled;
        }
        match self.mirror.store_log(k) {
            Ok(()) => Answer::Done,
            Err(fault) => Answer::NotStored(fault),
        }
    }

    pub(crate) fn member(&self, k: usize) -> Answer {
        let mirror = &self.mirror;
        if k >= mirror.members() {
            return Answer::NotCalled;
        }
        Answer::Is(mirror.state(k), mirror.due(k), mirror.re_added(k))
    }

    fn lack(&self, alloc: Global, k: usize) -> Answer {
        if k >= self.mirror.members() {
            return Answer::NotCalled;
        }
        let Ok(missing) = self.mirror.missing(alloc, k) else {
            return Answer::NotTold;
        };
        let answer = Answer::Lacks(missing.count(), missing.next_marked(0));
        drop(missing);
        answer
    }

    fn list(&self, k: usize) -> Answer {
        if k >= self.mirror.members() {
            return Answer::NotCalled;
        }
        let (runs, start, len) = listed_in(self.mirror.bad(k));
        Answer::Lists(runs, start, len)
    }

    fn permit(&self, chunk: u32) -> Answer {
        if chunk >= self.mirror.chunks().count() {
            return Answer::NotCalled;
        }
        Answer::Permits(self.mirror.permitted(chunk))
    }

    fn devices_left(&mut self, alloc: Global) -> Result<Answer, Fail> {
        match &mut self.left {
            Some(device) => Ok(Answer::Device(stored_on(alloc, device)?)),
            None => Ok(Answer::NotCalled),
        }
    }
}
