//! The requests in flight: a list of items that each hold a span of sectors, in order of entry. Each has a
//! number of its own, and whoever entered it a ticket by which it is found and taken out.
//!
//! Start with `Inflight`. It is a linked list over raw pointers, which contracts see as a list of numbers and
//! items.
//!
//! `requests/`: a request that writes to an array, while it is in flight.
//!
//! ```
//! let mut list = Inflight::new(alloc);
//! let ticket = list.push_back('a')?;
//! *list.get_mut(&ticket) = 'b';
//! let item = list.remove(ticket);
//! ```
#![tactic(auto)]

mod book;
mod chain;
mod fault;
mod freeing;
mod inflight;
mod iter;
mod node;
mod place;
mod requests;
mod span;
mod ticket;

pub use fault::{PushFault, Refused};
pub use inflight::Inflight;
pub use iter::Iter;
pub use requests::{Extent, Pending, no_requests, note_written, pending_of, ticket_of};
pub use span::Span;
pub use ticket::Ticket;
// A crate can name a list in a contract only if the types of its fields are exported.
#[doc(hidden)]
pub use book::{Book, Page};
#[doc(hidden)]
pub use chain::Chain;
#[doc(hidden)]
pub use node::Node;
#[doc(hidden)]
pub use place::Place;
