//! From the call to the moment at which a pass may be planned: what is due is stored, and a spare is admitted.
//!
//! Start with `make_ready` (`admission.rt`), and `Readies` in `specs/Readying/Admission.antt`, what it makes of the
//! mirror. `storing.rt` stores what the members have to know, in its order. `IsReadyToCopy` in `specs/Readying/Ready.antt`
//! holds from then on, until the target is in sync.
//!
//! ```
//! lower_target(mirror, target, &copied);
//! make_ready(alloc, mirror, target)?;
//! ```

mod admission;
mod storing;

pub(crate) use admission::{lower_target, make_ready};
