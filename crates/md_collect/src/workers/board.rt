// The board of a pass: how many of its slots are left, and how many of those noted failed.
ghost use Rattle.std.specs.Prelude.{◌≡◌, ◌+◌, ◌*◌, ◌%◌, ◌^◌, ◌<◌, ◌≤◌, ◌-◌, cond};
ghost use Rattle.md_collect.specs.Workers.Tally.{noted};

use std::marker::Model;
use std::sync::ledger;
use std::sync::ledger::{Blank, Book, Ledger};

/// How many slots of a pass are left to read, and how many of those that were noted failed. It stands
/// behind the lock; both numbers are the books of ledgers, in which each worker has a share.
#[derive(Drop)]
pub struct Board<L: Ledger, M: Ledger> {
    left: u32,
    failed: u32,
    left_book: Book<L>,
    failed_book: Book<M>,
    ghost left_is: { left ≡ left_book.total },
    ghost failed_is: { failed ≡ failed_book.total },
    ghost limit: { left + failed ≤ 1048576 },
}

/// The slots that one worker has left, and those that it noted as failed: its share of both books.
#[derive(Drop)]
pub struct Share<L: Ledger, M: Ledger> {
    left: ledger::Share<L>,
    failed: ledger::Share<M>,
}

impl<L: Ledger, M: Ledger> Model for Share<L, M> {
    ghost use Rattle.std.specs.Prelude.{◌≡◌, ◌+◌, ◌≤◌};
    ghost use Rattle.md_collect.specs.Workers.Tally.{Tally};

    ghost Value = { Tally };

    ghost view = { λ s. record { left = s.left.amount; failed = s.failed.amount; parts = s.left.parts } };

    ghost invariant = { λ s. (s.left.amount + s.failed.amount ≤ s.left.parts) × (s.failed.parts ≡ s.left.parts) };
}

impl<L: Ledger, M: Ledger> Board<L, M> {
    /// A board with so many slots left, and the share that has them all. It takes no memory.
    ///
    /// The blanks name the ledgers: the board and its shares have one name, so no share of another board
    /// can be entered.
    pub fn new(slots: u32, left: Blank, failed: Blank) -> (Board<L, M>, Share<L, M>)
        requires limit { slots ≤ 1048576 }
        requires left { (left.name ≡ L.name) × (left.parts ≡ L.parts) × (L.parts ≡ slots) }
        requires failed { (failed.name ≡ M.name) × (failed.parts ≡ M.parts) × (M.parts ≡ slots) }
        ensures share { result.1 ≡ record { left = slots; failed = 0; parts = slots } }
        ensures board { (result.0.left ≡ slots) × (result.0.failed ≡ 0) }
    {
        let (mut left_book, mut left) = left.open::<L>();
        let (failed_book, failed) = failed.open::<M>();
        if slots > 0 {
            left_book.add(&mut left, slots as u64);
        }
        (
            Board {
                left: slots,
                failed: 0,
                left_book,
                failed_book,
            },
            Share { left, failed },
        )
    }

    /// Notes a slot of the share, and whether its chunk was delivered. It takes no memory.
    pub fn enter(&mut self, share: &mut Share<L, M>, delivered: bool)
        requires { 0 < share.old.left }
        ensures board_left { self.new.left + 1 ≡ self.old.left }
        ensures board_failed { self.new.failed ≡ self.old.failed + cond delivered 0 1 }
        ensures share { share.new ≡ noted share.old delivered }
    {
        let Board {
            left,
            failed,
            left_book,
            failed_book,
        } = self;
        left_book.sub(&mut share.left, 1);
        *left -= 1;
        if !delivered {
            failed_book.add(&mut share.failed, 1);
            *failed += 1;
        }
    }

    /// How many slots were not noted yet. It takes no memory.
    pub fn left(&self) -> u32
        ensures { result ≡ self.now.left }
    {
        self.left
    }

    /// How many slots were noted as failed. It takes no memory.
    pub fn failed(&self) -> u32
        ensures { result ≡ self.now.failed }
    {
        self.failed
    }

    /// The share that has all parts, those of every worker, says what the board has.
    pub fn audit_share(&mut self, share: &mut Share<L, M>)
        requires { (share.old.parts ≡ L.parts) × (share.old.parts ≡ M.parts) }
        ensures share { share.new ≡ share.old }
        ensures left { self.new.left ≡ share.old.left }
        ensures failed { self.new.failed ≡ share.old.failed }
    {
        let Board {
            left: _,
            failed: _,
            left_book,
            failed_book,
        } = self;
        left_book.audit(&mut share.left);
        failed_book.audit(&mut share.failed);
    }
}

impl<L: Ledger, M: Ledger> Share<L, M> {
    /// A share with so many of the slots and none failed, and one with the rest. It takes no memory.
    pub fn split(self, left: u32) -> (Share<L, M>, Share<L, M>)
        requires { left ≤ self.left }
        ensures front { result.0 ≡ record { left = left; failed = 0; parts = left } }
        ensures back { result.1
            ≡ record { left = self.left - left; failed = self.failed; parts = self.parts - left } }
    {
        let Share {
            left: mut lefts,
            failed: mut fails,
        } = self;
        let front = Share {
            left: lefts.split_off(left as u64, left as u64),
            failed: fails.split_off(left as u64, 0),
        };
        (
            front,
            Share {
                left: lefts,
                failed: fails,
            },
        )
    }

    /// The sum of two shares of one board. It takes no memory.
    pub fn join(self, other: Share<L, M>) -> Share<L, M>
        ensures { result ≡ record {
          left = self.left + other.left;
          failed = self.failed + other.failed;
          parts = self.parts + other.parts;
        } }
    {
        let Share {
            mut left,
            mut failed,
        } = self;
        let Share {
            left: other_left,
            failed: other_failed,
        } = other;
        left.merge(other_left);
        failed.merge(other_failed);
        Share { left, failed }
    }
}
