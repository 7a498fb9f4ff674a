//! The salvage of a member: a rebuild that loses sectors, and no chunk for a sector.
//!
//! Start with `salvage`, the whole call (`whole_salvage.rt`). One pass copies what can be read chunk by chunk, as in a
//! rebuild. What no member gives then is lost: `losing.rt` lists it on all members in sync, and the target lists it as it
//! comes into sync. What holds of a salvage that is done is `HasSalvaged` in `specs/Salvaging/Salvaged.antt`.
//!
//! `sectors/`: the chunks that the pass left, sector by sector.
//! `room/`: which sectors are listed, so that each log has room.
//!
//! ```
//! let salvaged = salvage(rt, alloc, &mut mirror, 1, &gate)?;
//! ```

mod laws;
mod losing;
mod room;
mod salvaged;
mod sectors;
mod whole_salvage;

pub use laws::{salvage_events, salvaged_by_call};
pub use room::sectors_to_list;
pub use salvaged::Salvaged;
pub use whole_salvage::salvage;
