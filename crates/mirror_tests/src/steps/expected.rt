// What each step of a write has to answer, as a list of refusals. The array has two roles, and its
// requests are of one sector each: 8 or 9, which are in chunk 1.
use crate::steps::shown::Shown;
use crate::steps::step::{Answer, Step};
use md_array::{BeginFault, ClearFault, FinishFault, StoreFault, WriteMemberFault};

#[derive(Clone, Copy)]
pub(crate) struct ExpectedMember {
    pub(crate) in_sync: bool,
    pub(crate) due: bool,
    // The chunk is marked in its bitmap.
    marked: bool,
    // Sectors 8 and 9 are written.
    pub(crate) has: [bool; 2],
    // How many more writes its device takes.
    writes_left: u64,
}

// The request that began last.
#[derive(Clone, Copy)]
struct ExpectedRequest {
    number: u64,
    place: usize,
    written: [bool; 2],
}

#[derive(Clone, Copy)]
pub(crate) struct Expected {
    pub(crate) members: [ExpectedMember; 2],
    // Of these, as many are there.
    count: usize,
    absent_role: bool,
    clean: bool,
    marked: bool,
    halted: bool,
    events: u64,
    next: u64,
    // The numbers of those at sectors 8 and 9.
    in_flight: [Option<u64>; 2],
    last: Option<ExpectedRequest>,
}

fn opened_member(in_sync: bool, writes_left: u64) -> ExpectedMember {
    ExpectedMember {
        in_sync,
        due: false,
        marked: false,
        has: [false; 2],
        writes_left,
    }
}

impl Expected {
    // A clean array with no marks, on devices that take so many writes. With a count of one the second
    // member is not there.
    pub(crate) fn at_opening(count: usize, events: u64, writes: [u64; 2]) -> Expected {
        Expected {
            members: [
                opened_member(true, writes[0]),
                opened_member(count == 2, writes[1]),
            ],
            count,
            absent_role: count < 2,
            clean: true,
            marked: false,
            halted: false,
            events,
            next: 0,
            in_flight: [None; 2],
            last: None,
        }
    }

    pub(crate) fn shown_state(&self) -> Shown {
        let mut due = 0usize;
        for member in &self.members {
            if member.due {
                due = due.saturating_add(1);
            }
        }
        Shown {
            members: self.count,
            raid_disks: 2,
            events: self.events,
            entries: 2,
            marks: if self.marked { (1, Some(1)) } else { (0, None) },
            due,
            in_flight: self.first_in_flight(),
            clean: self.clean,
            resynced: true,
            degraded: self.is_degraded(),
            halted: self.halted,
        }
    }

    pub(crate) fn answer(&mut self, step: Step) -> Answer {
        match step {
            Step::Begin(sector) => self.begin(sector),
            Step::Record(k) => self.store(k, false),
            Step::StoreMarks(k) => self.store(k, true),
            Step::WriteMember(k) => match self.last {
                Some(request) if k < self.count => self.write_member(request, k),
                _ => Answer::NotCalled,
            },
            Step::Finish => match self.last {
                Some(request) => self.finish(request),
                None => Answer::NotCalled,
            },
            Step::ClearIdle => self.clear_idle(),
            _ => Answer::NotCalled,
        }
    }

    fn begin(&mut self, sector: u64) -> Answer {
        if self.halted {
            return Answer::NotBegun(BeginFault::Halted);
        }
        let place = (sector % 2) as usize;
        if let Some(number) = self.in_flight[place] {
            return Answer::NotBegun(BeginFault::Overlaps(number));
        }
        if self.clean || self.absent_role {
            if self.events == u64::MAX {
                return Answer::NotBegun(BeginFault::EventsFull);
            }
            self.rise();
        }
        self.clean = false;
        self.marked = true;
        let number = self.next;
        self.next = number.saturating_add(1);
        self.in_flight[place] = Some(number);
        self.last = Some(ExpectedRequest {
            number,
            place,
            written: [false; 2],
        });
        Answer::Begun(number)
    }

    // The superblock, or the marks.
    fn store(&mut self, k: usize, marks: bool) -> Answer {
        if k >= self.count {
            return Answer::NotCalled;
        }
        if self.halted {
            return Answer::NotStored(StoreFault::Halted);
        }
        if !self.is_in_sync(k) {
            return Answer::NotStored(StoreFault::NotActive);
        }
        if !self.takes_write(k) {
            return Answer::NotStored(if self.goes_on_without(k) {
                StoreFault::MemberFailed(k)
            } else {
                StoreFault::Halted
            });
        }
        let marked = self.marked;
        if let Some(member) = self.members.get_mut(k) {
            if marks {
                member.marked = marked;
            } else {
                member.due = false;
            }
        }
        Answer::Done
    }

    fn write_member(&mut self, request: ExpectedRequest, k: usize) -> Answer {
        if self.halted {
            return Answer::NotWritten(WriteMemberFault::Halted);
        }
        if !self.is_in_sync(k) {
            return Answer::NotWritten(WriteMemberFault::NotActive);
        }
        for (j, member) in self.members.iter().enumerate() {
            if member.in_sync && !member.marked {
                return Answer::NotWritten(WriteMemberFault::NotMarked(j));
            }
        }
        if let Some(j) = self.first_due() {
            return Answer::NotWritten(WriteMemberFault::NotRecorded(j));
        }
        if request.written.get(k) == Some(&true) {
            return Answer::NotWritten(WriteMemberFault::AlreadyWritten);
        }
        if !self.takes_write(k) {
            return Answer::NotWritten(if self.goes_on_without(k) {
                WriteMemberFault::MemberFailed(k)
            } else {
                WriteMemberFault::Halted
            });
        }
        self.note_written(request, k);
        Answer::Done
    }

    fn note_written(&mut self, request: ExpectedRequest, k: usize) {
        let mut request = request;
        if let Some(written) = request.written.get_mut(k) {
            *written = true;
        }
        self.last = Some(request);
        if let Some(member) = self.members.get_mut(k) {
            member.has[request.place % 2] = true;
        }
    }

    fn finish(&mut self, request: ExpectedRequest) -> Answer {
        if self.halted {
            return Answer::NotFinished(FinishFault::Halted);
        }
        for (k, member) in self.members.iter().enumerate() {
            if member.in_sync && request.written.get(k) == Some(&false) {
                return Answer::NotFinished(FinishFault::Unwritten(k));
            }
        }
        if let Some(k) = self.first_due() {
            return Answer::NotFinished(FinishFault::MustRecord(k));
        }
        self.in_flight[request.place % 2] = None;
        self.last = None;
        Answer::Done
    }

    fn clear_idle(&mut self) -> Answer {
        if self.halted {
            return Answer::NotCleared(ClearFault::Halted);
        }
        if self.is_degraded() {
            return Answer::NotCleared(ClearFault::Degraded);
        }
        if let Some(number) = self.first_in_flight() {
            return Answer::NotCleared(ClearFault::Busy(number));
        }
        if !self.marked {
            return Answer::NotCleared(ClearFault::NotMarked);
        }
        self.marked = false;
        Answer::Done
    }

    // Numbers rise in order of entry.
    fn first_in_flight(&self) -> Option<u64> {
        match (self.in_flight[0], self.in_flight[1]) {
            (Some(a), Some(b)) => Some(a.min(b)),
            (Some(a), None) => Some(a),
            (None, b) => b,
        }
    }

    fn is_degraded(&self) -> bool {
        !self.members[0].in_sync || !self.members[1].in_sync
    }

    fn is_in_sync(&self, k: usize) -> bool {
        match self.members.get(k) {
            Some(member) => member.in_sync,
            None => false,
        }
    }

    // Of those in sync.
    fn first_due(&self) -> Option<usize> {
        for (k, member) in self.members.iter().enumerate() {
            if member.in_sync && member.due {
                return Some(k);
            }
        }
        None
    }

    fn takes_write(&mut self, k: usize) -> bool {
        let Some(member) = self.members.get_mut(k) else {
            return false;
        };
        let takes = member.writes_left > 0;
        member.writes_left = member.writes_left.saturating_sub(1);
        takes
    }

    // A write to member k failed: it is faulty, or the mirror is halted.
    fn goes_on_without(&mut self, k: usize) -> bool {
        let has_other = k < 2 && self.is_in_sync(1 - k);
        if !has_other || self.events == u64::MAX {
            self.halted = true;
            return false;
        }
        if let Some(member) = self.members.get_mut(k) {
            member.in_sync = false;
        }
        self.rise();
        true
    }

    fn rise(&mut self) {
        self.events = self.events.saturating_add(1);
        self.absent_role = false;
        for member in &mut self.members {
            member.due = member.in_sync;
        }
    }
}
