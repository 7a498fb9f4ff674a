//! What copies of members lack, as their maps say, counts as part of the members' lists of bad blocks.
//!
//! Start with `open_lacking` (`holes.rt`), which opens an array so, and `IsRegarded` in `specs/Lacking.antt`. Which sectors count where a
//! resync is to come: `marked_sectors.rt` and `given_sectors.rt`. A rebuild stores these lists before it copies (`storing_lists.rt`,
//! `performing_and_storing.rt`), as long as a log has room to spare (`trial_list.rt`). A map of the member that is rebuilt is refused
//! (`map_of_target.rt`).

mod given_sectors;
mod holes;
mod map_of_target;
mod marked_sectors;
mod performing_and_storing;
mod storing_lists;
mod trial_list;

pub(crate) use holes::open_lacking;
pub(crate) use map_of_target::goes_on;
pub(crate) use performing_and_storing::perform_and_store;
