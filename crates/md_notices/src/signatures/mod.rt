//! Signatures on a device: the magic numbers of file systems, partition tables, volumes and md superblocks. A device is
//! only read.
//!
//! Start with `find_signatures`; `table.rt` has the magic numbers, and where they stand.
//!
//! ```
//! let look = find_signatures(signature_list(alloc)?, &mut device);
//! let name = look.found.first().map(|signature| signature.text());
//! ```

mod bearing;
mod finding;
mod magic;
mod partitions;
mod read_sector;
mod signature;
mod table;

pub(crate) use finding::signature_list;
pub use finding::{Look, find_signatures};
pub use signature::{SIGNATURES, Signature};
