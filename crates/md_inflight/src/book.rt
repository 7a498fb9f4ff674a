// Where the node of each number lies: a list of addresses that only grows, and takes no bytes.
ghost use Rattle.std.specs.Prelude.{◌≡◌, ◌<◌, ℕ, List, [], ◌∷◌, ◌++◌, length, slice_get};
ghost use denote.RawPtr.{Ptr};
ghost use denote.Sharing.{said};
ghost use Rattle.md_inflight.specs.Addresses.{book_owns, page_owns};

use crate::place::Place;
use std::marker::{Model, PhantomData, Send, Sync};

/// What a list has: the address of each node that it ever had, under the node's number.
pub struct Book {
    mark: PhantomData<()>,
    pub ghost name: { ℕ },
    pub ghost addresses: { List Ptr },
}

impl Model for Book {
    ghost also_owns = { λ b. book_owns b.name b.addresses };

    ghost also_shares = { λ b _ κ. said (page_owns b.name b.addresses) κ };
}

/// What a ticket has: the addresses that the book of this name had when the ticket was given. They stay
/// its first for good, so this can be known twice, and a number has one address in all pages of a book.
pub struct Page {
    mark: PhantomData<()>,
    pub ghost name: { ℕ },
    pub ghost addresses: { List Ptr },
}

impl Model for Page {
    ghost also_owns = { λ p. page_owns p.name p.addresses };

    ghost also_shares = { λ p _ κ. said (page_owns p.name p.addresses) κ };
}

impl Book {
    /// A book under a name of its own, for a list whose next number is this one. It says nothing of those before.
    pub(crate) fn new(next: u64) -> Book
        ensures { length result.addresses ≡ next }
    {
        let _ = next;
        Book { mark: PhantomData }
    }

    /// Books the place under the next number.
    pub(crate) fn enter(&mut self, place: Place) -> Page
        ensures { (self.new.name ≡ self.old.name) × (self.new.addresses ≡ self.old.addresses ++ place.ptr ∷ []) × (result.name ≡ self.old.name) × (result.addresses ≡ self.old.addresses ++ place.ptr ∷ []) }
    {
        let _ = place;
        Page { mark: PhantomData }
    }

    /// Does nothing. It shows that the book and the page have one address under each number of both.
    pub(crate) fn agrees(&self, page: &Page)
        requires { page.now.name ≡ self.now.name }
        ensures { (k : ℕ) → k < length self.now.addresses → k < length page.now.addresses → slice_get self.now.addresses k ≡ slice_get page.now.addresses k }
    {}
}

impl Drop for Book {
    fn drop(self) {
        let Self { mark: _ } = self;
    }
}

impl Drop for Page {
    fn drop(self) {
        let Self { mark: _ } = self;
    }
}

unsafe impl Send for Book {}

unsafe impl Send for Page {}

unsafe impl Sync for Page {}
