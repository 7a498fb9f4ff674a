// The list of requests in flight.
ghost use Rattle.std.specs.Prelude.{◌≡◌, ◌+◌, ◌^◌, ◌<◌, ◌≢◌, ◌==◌, ◌↔◌, [], ◌∷◌, ◌++◌, Some, None, IsTrue, IsErr, OnOk, OnErr, IfOk, IfErr, length, if◌then◌else◌};
ghost use Rattle.std.specs.Borrow.{sem};
ghost use Rattle.md_inflight.specs.Inflight.{TicketView, BelongsTo, IsNumbered, lookup, entries_without, with_item, first_meeting};

use crate::book::Book;
use crate::chain::Chain;
use crate::fault::{PushFault, Refused};
use crate::freeing::free_all;
use crate::iter::Iter;
use crate::span::{Span, meets};
use crate::ticket::Ticket;
use std::alloc::{AllocFailed, Global};
use std::fmt;
use std::fmt::Debug;
use std::marker::Model;

/// A list of items in order of entry, each under a number of its own.
///
/// Numbers rise from 0, or from the one that `from_number` is given, and none is given out twice. Contracts see the entries as pairs of a number and
/// an item, the number of the next entry, which is 2^64 once u64::MAX was given out, and the list's
/// name, which its tickets carry. No contract says which name a new list has. So a ticket can't be shown
/// to belong to another list, though its number may stand there. Names take no bytes.
pub struct Inflight<T> {
    chain: Chain<T>,
    alloc: Global,
    // Kept, since to count would be to go through all.
    len: usize,
    // `None` once u64::MAX was given out.
    next: Option<u64>,
    // Its name is the list's. It ties each ticket's place to its number.
    book: Book,
}

impl<T> Model for Inflight<T> {
    ghost use Rattle.md_inflight.specs.Inflight.{InflightList, inflight_code, next_number};
    ghost use Rattle.md_inflight.specs.Kept.{IsKeptList, items};

    ghost Value = { InflightList T };

    ghost coded = { inflight_code T.code };

    ghost view = { λ a. record { name = a.book.name; entries = items a.chain.nodes; next = next_number a.next } };

    ghost invariant = { λ a. IsKeptList a.chain.first a.chain.last a.chain.nodes a.len (next_number a.next) a.book.addresses };
}

impl<T> Inflight<T> {
    ghost use Rattle.md_inflight.specs.Lends.{LendsItem};

    /// The empty list.
    pub fn new(alloc: Global) -> Self
        ensures entries { result.entries ≡ [] }
        ensures next { result.next ≡ 0 }
    {
        Self::from_number(alloc, 0)
    }

    /// The empty list whose first entry gets this number.
    pub fn from_number(alloc: Global, number: u64) -> Self
        ensures entries { result.entries ≡ [] }
        ensures next { result.next ≡ number }
    {
        Inflight {
            chain: Chain::new(),
            alloc,
            len: 0,
            next: Some(number),
            book: Book::new(number),
        }
    }

    /// The number of entries.
    pub fn len(&self) -> usize
        ensures { result ≡ length self.now.entries }
    {
        self.len
    }

    /// Whether there is no entry.
    pub fn is_empty(&self) -> bool
        ensures { IsTrue result ↔ (self.now.entries ≡ []) }
    {
        self.len == 0
    }

    /// The numbers and items in order of entry.
    pub fn iter(&self) -> Iter<'_, T>
        ensures entries { result ≡ self.now.entries }
        ensures numbered { IsNumbered self.now }
    {
        Iter {
            chain: &self.chain,
            ahead: self.chain.first(),
        }
    }

    /// Enters `item` at the end, or hands it back. `NumbersSpent` comes before `NoMemory`.
    pub fn push_back(&mut self, item: T) -> Result<Ticket, Refused<T>>
        // The item stands at the end under the next number, and every other ticket stays good.
        ensures entries { OnOk result
            (self.new.entries ≡ self.old.entries ++ (self.old.next, item) ∷ []) }
        ensures next { OnOk result (self.new.next ≡ self.old.next + 1) }
        ensures name { self.new.name ≡ self.old.name }
        ensures ticket { IfOk result (λ ticket. ticket ≡ record { name = self.old.name; number = self.old.next }) }
        ensures belongs { IfOk result (BelongsTo self.new) }
        ensures fresh { lookup self.old.entries self.old.next ≡ None }
        ensures kept { (other : TicketView)
            → BelongsTo self.old other → BelongsTo self.new other }

        // It is refused where no number is left, and otherwise only where memory ran out.
        ensures spent { self.old.next ≡ 2 ^ 64 → IsErr result }
        ensures why { IfErr result (λ refused. refused.why ≡
            (if self.old.next == 2 ^ 64 then PushFault.NumbersSpent else PushFault.NoMemory)) }
        ensures item { IfErr result (λ refused. refused.item ≡ item) }
        ensures err { OnErr result (self.new ≡ self.old) }
    {
        let Some(number) = self.next else {
            return Err(Refused {
                item,
                why: PushFault::NumbersSpent,
            });
        };
        let Some(len) = self.len.checked_add(1) else {
            return Err(Refused {
                item,
                why: PushFault::NoMemory,
            });
        };
        match self.chain.push(self.alloc, number, item) {
            Ok(place) => {
                let page = self.book.enter(place);
                self.len = len;
                self.next = number.checked_add(1);
                Ok(Ticket::of(page, number, place))
            }
            Err(AllocFailed { value: item }) => Err(Refused {
                item,
                why: PushFault::NoMemory,
            }),
        }
    }

    /// The item of `ticket`.
    pub fn get(&self, ticket: &Ticket) -> &T
        requires { BelongsTo self.now ticket.now }
        ensures { lookup self.now.entries ticket.now.number ≡ Some result.now }
    {
        self.book.agrees(&ticket.page);
        &self.chain.node(ticket.place).item
    }

    /// The item of `ticket`, for writing.
    pub fn get_mut(&mut self, ticket: &Ticket) -> &mut T
        requires { BelongsTo self.old ticket.now }
        ensures* writes_back { sem 𝓛 (LendsItem T.row self.entry ticket.now.number result) }
        ensures item { lookup self.old.entries ticket.now.number ≡ Some result.now }

        // Whatever is written, every ticket stays good.
        ensures kept { (other : TicketView) (written : T)
            → BelongsTo self.old other
            → BelongsTo (with_item self.old ticket.now.number written) other }
    {
        self.book.agrees(&ticket.page);
        &mut self.chain.node_mut(ticket.place).item
    }

    /// Takes the entry of `ticket` out and gives its item. The others keep their order and numbers.
    pub fn remove(&mut self, ticket: Ticket) -> T
        requires { BelongsTo self.old ticket }
        ensures item { lookup self.old.entries ticket.number ≡ Some result }
        ensures entries { self.new.entries ≡ entries_without self.old.entries ticket.number }
        ensures next { self.new.next ≡ self.old.next }
        ensures name { self.new.name ≡ self.old.name }

        // The tickets of the other numbers stay good.
        ensures kept { (other : TicketView) → other.number ≢ ticket.number
            → BelongsTo self.old other → BelongsTo self.new other }
    {
        self.book.agrees(&ticket.page);
        self.len -= 1;
        self.chain.remove(ticket.place, self.alloc)
    }
}

impl<T: Span> Inflight<T> {
    /// The number of the first entry that has one of the `len` sectors from `start` on. The end of
    /// either may lie past 2^64.
    pub fn any_meeting(&self, start: u64, len: u64) -> Option<u64>
        ensures { result ≡ first_meeting T.start T.len self.now.entries start len }
    {
        for (number, item) in self.iter() {
            if meets(item.start(), item.len(), start, len) {
                return Some(number);
            }
        }
        None
    }
}

impl<T: Debug> Debug for Inflight<T> {
    fn fmt<W: fmt::Write>(&self, f: &mut fmt::Formatter<W>) -> fmt::Result {
        f.debug_list().entries(self.iter()).finish()
    }
}

impl<T: Drop> Drop for Inflight<T> {
    fn drop(self) {
        let Inflight {
            chain,
            alloc,
            len: _,
            next: _,
            book: _,
        } = self;
        free_all(chain, alloc);
    }
}
