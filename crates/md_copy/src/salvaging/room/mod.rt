//! Room in the logs: which sectors are listed if some are lost, so that each log has room for its list.
//!
//! Start with `sectors_to_list` (`fitting.rt`), and `IsFitting` in `specs/Salvaging/Fitting.antt`, what it answers.
//! `widening.rt` has the sectors that are listed beside the lost ones. They are in gaps that `uniting.rt` closes if that saves
//! an entry. `log_check.rt` looks at all logs once more before anything is listed.
//!
//! ```
//! let listed = sectors_to_list(alloc, mirror, target, &missing, lost)?;
//! look_for_room(alloc, mirror, target, &missing, &listed)?;
//! ```

mod fitting;
mod log_check;
mod uniting;
mod widening;

pub use fitting::sectors_to_list;
pub(crate) use log_check::look_for_room;
pub(crate) use widening::unmark_listed;
