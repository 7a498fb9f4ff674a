//! The rebuild of a member: what is copied to it, and from where.
//!
//! Start with `rebuild`, the whole call (`whole_rebuild.rt`), which takes the folders in this order. What holds of a
//! rebuild that is done is `HasRebuilt` in `specs/Rebuilt.antt`.
//!
//! `beginning/`: what a rebuild would copy, and why a member is not rebuilt, before anything is copied.
//! `readying/`: what is due is stored, and a spare is admitted.
//! `passes/`: what can be read is copied, and what could not be read is listed on its sources.
//! `ending/`: the target comes into sync, or how far it came is recorded.
//!
//! `pass_laws/`: the passes of a rebuild, as plans one after another.
//! `salvaging/`: a rebuild that loses sectors, and no chunk for a sector.
//!
//! ```
//! let rebuilt = rebuild(rt, alloc, &mut mirror, 1, &gate)?;
//! ```
#![tactic(auto)]

mod beginning;
mod ending;
pub mod laws;
mod pass_laws;
mod passes;
mod readying;
mod rebuilt;
mod salvaging;
mod whole_rebuild;

pub use beginning::{RebuildFault, check_rebuild, keep_missing, marks_of, table, uncopied_chunks};
pub use pass_laws::{copies_add, lists_add, passes_end, passes_go_on};
pub use rebuilt::Rebuilt;
pub use salvaging::{Salvaged, salvage, salvage_events, salvaged_by_call, sectors_to_list};
pub use whole_rebuild::rebuild;
