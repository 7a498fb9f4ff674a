//! A member of which the superblock or the bitmap can't be read gets ones that stand in for them: in memory alone, made of what
//! the other members show of the array. By its superblock it is recovering and lacks all, so that it changes nothing of the
//! array, and none of its data count as the array's; or it is in sync, to be compared. What it has is read where no member in
//! sync gives a sector (`others.rt`).
//!
//! Its areas lie where those of the member whose superblock decides do, or where its own superblock says, where that can be read. Its
//! number is in a role by that superblock and by each member in sync, and no member has the number or the role. What can be read of its
//! own (the first sector of the superblock, and a bitmap's header where the others have theirs) has the array's UUID, that number, and the
//! events of that superblock, one less, or in the bitmap one more. Its log is read where it has entries, and lists what is not taken.
//!
//! That the member was in sync the others tell, and not that it was not recovering: theirs have no offset of it.
//!
//! Start with `put_stand_in`. `shown.rt` has what the other members show, `own.rt` what of its own can be read, `made.rt` what is
//! made of both, `kept_log.rt` its log, and `fronted.rt` the device that keeps it in memory, over sectors that can't be read.
//!
//! ```
//! put_stand_in(alloc, &others, &mut device, StandIn { index: 1, number: 1, compared: false })?;
//! ```

mod fronted;
mod given;
mod kept_log;
mod made;
mod own;
mod put;
mod shown;

pub use fronted::{FrontedDevice, front_each};
pub(crate) use given::read_stand_ins;
pub use put::{StandIn, put_stand_in};
