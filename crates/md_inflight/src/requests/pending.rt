// A request in flight, as its caller has it.
ghost use Rattle.std.specs.Prelude.{◌≡◌, ◌<◌, [], ◌∷◌, ◌++◌, length};
ghost use Rattle.md_inflight.specs.Requests.Pending.{has_written, request_sectors};

use crate::ticket::Ticket;
use arrayvec::ArrayVec;
use std::marker::Model;

/// A write to the array that began and is not finished: its place in the list of those in flight, its
/// bytes, and which members have them. These are kept by their `dev_number`, so that the removal of
/// another member changes nothing; there is room for as many as an array has members.
///
/// One that is dropped stays in flight: its chunks stay marked, and its sectors taken. So does one of a
/// mirror that is halted, whose `finish` only hands it back.
///
/// What makes or changes one are functions of this crate, which the mirror's crate does not pass on: a caller can't note a
/// member as written that is not.
#[derive(Drop)]
pub struct Pending<'a> {
    ticket: Ticket,
    sector: u64,
    bytes: &'a [u8],
    written: ArrayVec<u32, 64>,
}

ghost use Rattle.md_inflight.specs.Requests.Pending.{PendingView};

impl<'a> Model for Pending<'a> {
    ghost Value = { PendingView };

    ghost view = { λ p. record { ticket = p.ticket; sector = p.sector; bytes = p.bytes.now; written = p.written.items } };
}

impl<'a> Pending<'a> {
    /// The number of the request.
    pub fn number(&self) -> u64
        ensures { result ≡ self.now.ticket.number }
    {
        self.ticket.number()
    }

    /// How many sectors it has.
    pub fn sectors(&self) -> u64
        ensures { result ≡ request_sectors self.now }
    {
        self.bytes.len() as u64 / 512
    }

    /// The first of its sectors, of the array.
    pub fn sector(&self) -> u64
        ensures { result ≡ self.now.sector }
    {
        self.sector
    }

    /// Its bytes.
    pub fn bytes(&self) -> &'a [u8]
        ensures { result.now ≡ self.now.bytes }
    {
        self.bytes
    }

    /// Whether the member of this number has the bytes.
    pub fn has_written(&self, dev_number: u32) -> bool
        ensures { result ≡ has_written self.now dev_number }
    {
        self.written.contains(&dev_number)
    }
}

/// The request that was entered under this ticket, whose bytes no member has.
pub fn pending_of<'a>(ticket: Ticket, sector: u64, bytes: &'a [u8]) -> Pending<'a>
    ensures { result ≡ record { ticket = ticket; sector = sector; bytes = bytes.now; written = [] } }
{
    Pending {
        ticket,
        sector,
        bytes,
        written: ArrayVec::new(),
    }
}

/// Its ticket, by which it is taken out of the list.
pub fn ticket_of(pending: Pending<'_>) -> Ticket
    ensures { result ≡ pending.entry.ticket }
{
    pending.ticket
}

/// The member of this number has its bytes.
pub fn note_written(pending: &mut Pending<'_>, dev_number: u32)
    requires { length pending.old.written < 64 }
    ensures { pending.new ≡ record pending.old { written = pending.old.written ++ dev_number ∷ [] } }
{
    pending.written.push(dev_number);
}
