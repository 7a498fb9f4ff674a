//! How a rebuild ends: its target comes into sync, or how far it came is recorded before the fault is answered.
//!
//! Start with `enrol_copied` (`enrol_filled.rt`), and `EnrolsCopied` in `specs/Ending/Enrolled.antt`, what it does.
//! `orphans.rt` has room for what is told of the chunks that nobody could give. Once the target is in sync,
//! `until_done.rt` tells the others. `last_record.rt` is the other end.
//!
//! ```
//! let told = enrol_copied(alloc, mirror, target, plans, copied, orphans)?;
//! store_until_done(mirror);
//! ```

mod enrol_filled;
mod last_record;
mod orphans;
mod until_done;

pub(crate) use enrol_filled::enrol_copied;
pub(crate) use last_record::leave;
pub(crate) use orphans::{Orphans, no_orphans};
pub(crate) use until_done::store_until_done;
