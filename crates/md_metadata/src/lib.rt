//! `stop`, and the parts of whole calls that store what the members have to know of an array, marks and
//! superblocks: by the steps alone. And `come_back`, which has a device that comes back lack all of its data.
//!
//! The contract of each part says which events it does, and what holds after them; where a member fails on
//! the way, the caller chooses whether to begin again.
//!
//! `bitmap_grow/`: a write-intent bitmap for an array that has none.
//!
//! Start with `stop` (`whole_stop.rt`), which does most of the parts, one after another. A whole call of
//! another crate stores what is due so:
//!
//! ```
//! store_all_marks(mirror)?;
//! store_records(mirror)?;
//! store_other_records(mirror)?;
//! ```
#![tactic(auto)]

mod all_marks;
mod bitmap_grow;
mod coming_back;
mod fault;
mod idle_marks;
mod lists;
mod offsets;
mod records;
mod sectors;
mod stop_fault;
mod whole_stop;

pub use all_marks::store_all_marks;
pub use bitmap_grow::{GrowFault, grow, keeps_data, reads_back, stays_in_sync};
pub use coming_back::{RebuildExtent, come_back};
pub use fault::PartFault;
pub use idle_marks::clear_marks;
pub use lists::store_list;
pub use offsets::lower_offsets;
pub use records::{store_other_records, store_record, store_records};
pub use sectors::store_sector;
pub use stop_fault::StopFault;
pub use whole_stop::stop;
