// What finds an entry again.
ghost use Rattle.std.specs.Prelude.{◌≡◌, Some, slice_get};

use crate::book::Page;
use crate::place::Place;
use std::marker::Model;

/// The right to one entry of the list that gave it. It can't be copied, and taking the entry out uses it up.
///
/// Dropping it leaves the entry in the list for good.
#[derive(Drop)]
#[derive_where(Debug)]
pub struct Ticket {
    pub(crate) number: u64,
    // Where the entry's node lies: it is found there, without a search.
    #[derive_where(skip)]
    pub(crate) place: Place,
    // Its name is that of the list. It shows that the node of this number lies at this place.
    #[derive_where(skip)]
    pub(crate) page: Page,
}

impl Model for Ticket {
    ghost use Rattle.std.specs.Prelude.{◌≡◌, Some, slice_get};
    ghost use Rattle.md_inflight.specs.Inflight.{TicketView};

    ghost Value = { TicketView };

    ghost view = { λ t. record { name = t.page.name; number = t.number } };

    ghost invariant = { λ t. slice_get t.page.addresses t.number ≡ Some t.place.ptr };
}

impl Ticket {
    /// The ticket of the entry that the page has under this number, at this place.
    pub(crate) fn of(page: Page, number: u64, place: Place) -> Self
        requires { slice_get page.addresses number ≡ Some place.ptr }
        ensures { result ≡ record { name = page.name; number = number } }
    {
        Ticket {
            number,
            place,
            page,
        }
    }

    /// The number of the entry.
    pub fn number(&self) -> u64
        ensures { result ≡ self.now.number }
    {
        self.number
    }
}
