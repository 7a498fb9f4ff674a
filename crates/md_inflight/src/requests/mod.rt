//! A request that writes to an array, while it is in flight: its place in the mirror's list, and what its
//! caller has of it.
//!
//! Start with `Pending`, what the caller has; `Extent` is what the list has.
//!
//! ```
//! let mut requests = no_requests(alloc);
//! let ticket = requests.push_back(Extent { start: 8, sectors: 1 })?;
//! let mut pending = pending_of(ticket, 8, &[0xa5; 512]);
//! note_written(&mut pending, 0);
//! let extent = requests.remove(ticket_of(pending));
//! ```

mod extent;
mod pending;

pub use extent::{Extent, no_requests};
pub use pending::{Pending, note_written, pending_of, ticket_of};
