// Beginning a request.
ghost use Rattle.std.specs.Prelude.{◌≡◌, ◌↔◌, ◌+◌, ◌/◌, ◌^◌, ◌==◌, ◌++◌, [], ◌∷◌, List, None, true, IfErr, IfOk, MatchResult, OnErr, OnOk, if◌then◌else◌, length};
ghost use Rattle.std.specs.Int.{div_ceil};
ghost use Rattle.md_inflight.specs.Inflight.{lookup};
ghost use Rattle.md_state.specs.Steps.Begin.{Begins, HasMarked, IsInRange, MayBeginAt, RefusesBegin, active_offset, array_after_rise, first_sector, has_to_rise, with_offsets_lowered};
ghost use Rattle.md_state.specs.Steps.Rise.{HasSpentEvents};
ghost use Rattle.md_state.specs.View.{Disk};

use crate::array::Array;
use md_faults::BeginFault;
use md_inflight::{Extent, Pending, PushFault, Ticket, pending_of};
use md_kept_members::lower_offsets;
use md_super::CLEAN_OFFSET;

impl Array {
    /// What `Mirror::begin` does, whatever its devices are: it uses none.
    pub fn begin<'a>(&mut self, sector: u64, bytes: &'a [u8]) -> Result<Pending<'a>, BeginFault>
        requires { self.old.marks.chunks ≡ div_ceil self.old.chunks.size self.old.chunks.sectors }
        ensures { (disks : List Disk) → MatchResult result (λ p. Begins sector bytes.now (record { disks = disks; array = self.old }) (record { disks = disks; array = self.new }) p)
            (RefusesBegin sector (length bytes.now / 512) (record { disks = disks; array = self.old }) (record { disks = disks; array = self.new })) }
    {
        let sectors = bytes.len() as u64 / 512;
        self.check_begin(sector, sectors)?;
        let ticket = self.enter(sector, sectors)?;
        self.count_request();
        self.lower_offsets_from(sector);
        self.become_active();
        self.mark_sectors(sector, sectors);
        Ok(pending_of(ticket, sector, bytes))
    }

    // Whether a request of these sectors may begin, but for its number and its memory.
    fn check_begin(&self, sector: u64, sectors: u64) -> Result<(), BeginFault>
        ensures { (disks : List Disk) → MatchResult result (λ _. MayBeginAt self.now sector sectors)
            (RefusesBegin sector sectors (record { disks = disks; array = self.now }) (record { disks = disks; array = self.now })) }
    {
        if self.halted {
            return Err(BeginFault::Halted);
        }
        if !self.is_in_range(sector, sectors) {
            return Err(BeginFault::OutOfRange);
        }
        if let Some(number) = self.requests.any_meeting(sector, sectors) {
            return Err(BeginFault::Overlaps(number));
        }
        if !self.resynced {
            return Err(BeginFault::NotResynced);
        }
        if self.shared.events == u64::MAX && self.has_to_rise() {
            return Err(BeginFault::EventsFull);
        }
        Ok(())
    }

    fn is_in_range(&self, sector: u64, sectors: u64) -> bool
        ensures { (result ≡ true) ↔ IsInRange self.now sector sectors }
    {
        let size = self.chunks.size;
        0 < sectors && sectors <= size && sector <= size - sectors
    }

    // Enters a request of these sectors.
    fn enter(&mut self, start: u64, sectors: u64) -> Result<Ticket, BeginFault>
        ensures fresh { lookup self.old.requests.entries self.old.requests.next ≡ None }
        ensures ticket { IfOk result (λ ticket. ticket ≡ record { name = self.old.requests.name; number = self.old.requests.next }) }
        ensures entered { OnOk result (self.new ≡ record self.old {
          requests = record self.old.requests {
            entries = self.old.requests.entries ++ (self.old.requests.next, record { start = start; sectors = sectors }) ∷ [];
            next = self.old.requests.next + 1;
          };
        }) }
        ensures why { IfErr result (λ fault. fault ≡ (if self.old.requests.next == 2 ^ 64 then BeginFault.NumbersSpent else BeginFault.NoMemory)) }
        ensures err { OnErr result (self.new ≡ self.old) }
    {
        match self.requests.push_back(Extent { start, sectors }) {
            Ok(ticket) => Ok(ticket),
            Err(refused) => Err(begin_fault(refused.why)),
        }
    }

    // The count rises where a request makes it rise.
    fn count_request(&mut self)
        requires { has_to_rise self.old ≡ true → HasSpentEvents self.old → ⊥ }
        ensures { self.new ≡ array_after_rise self.old }
    {
        if self.has_to_rise() {
            self.rise();
        }
    }

    // Data are about to change in the chunk of this sector, and past it.
    fn lower_offsets_from(&mut self, sector: u64)
        ensures { self.new ≡ with_offsets_lowered (first_sector self.old sector) self.old }
    {
        let start = self.chunk_start(sector);
        lower_offsets(&mut self.members, start);
    }

    /// Where the chunk of this sector begins.
    pub(crate) fn chunk_start(&self, sector: u64) -> u64
        ensures { result ≡ first_sector self.now sector }
    {
        let width = u64::from(self.chunks.sectors);
        sector / width * width
    }

    // The array is clean no more.
    fn become_active(&mut self)
        ensures { self.new ≡ record self.old { shared = record self.old.shared { resync_offset = active_offset self.old.shared.resync_offset } } }
    {
        if self.shared.resync_offset == CLEAN_OFFSET {
            self.shared.resync_offset = 0;
        }
    }

    // Marks the chunks of these sectors in memory.
    fn mark_sectors(&mut self, sector: u64, sectors: u64)
        requires range { IsInRange self.old sector sectors }
        requires count { self.old.marks.chunks ≡ div_ceil self.old.chunks.size self.old.chunks.sectors }
        ensures marked { HasMarked self.old sector sectors self.new.marks }
        ensures others { self.new ≡ record self.old { marks = self.new.marks } }
    {
        let (first, end) = self.chunks.chunks_of(sector, sectors);
        self.marks.mark_range(first, end);
    }
}

fn begin_fault(why: PushFault) -> BeginFault
    ensures spent { why ≡ PushFault.NumbersSpent → result ≡ BeginFault.NumbersSpent }
    ensures memory { why ≡ PushFault.NoMemory → result ≡ BeginFault.NoMemory }
{
    match why {
        PushFault::NumbersSpent => BeginFault::NumbersSpent,
        PushFault::NoMemory => BeginFault::NoMemory,
    }
}
