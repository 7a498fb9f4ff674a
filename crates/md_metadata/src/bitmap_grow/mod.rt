//! A write-intent bitmap for an array that has none: it is put on each member, and all else stays as it was.
//!
//! Start with `grow`. `growth.rt` finds what each member gets, and refuses before anything is written; `store.rt` writes it.
//! `laws.rt` says what stands on the devices then.
//!
//! ```
//! grow(alloc, &mut devices, 64 << 20)?;
//! ```

mod fault;
mod growth;
mod laws;
mod places;
mod store;
mod whole_grow;

pub use fault::GrowFault;
pub use laws::{keeps_data, reads_back, stays_in_sync};
pub use whole_grow::grow;
