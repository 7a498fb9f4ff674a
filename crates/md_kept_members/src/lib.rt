//! What a mirror keeps in memory of each member, without its device, and what is found by going through a
//! list of members.
//!
//! Start with `Member`, and `members_of`, which makes members of what was read. The other functions each
//! answer one question on a list of them.
//!
//! `membership/`: what an array's superblock and its members say of device numbers and roles.
//! `on_devices/`: all of a member but its data, stored on its device.
//!
//! ```
//! let members = members_of(alloc, infos, &assembly.states, events)?;
//! let marks = united_marks(alloc, &members, chunks.count())?;
//! let resynced = is_resynced(&members, &marks);
//! let roles = permitted_roles(&members, chunks, chunk);
//! ```
#![tactic(auto)]

mod agreement;
mod bad_lists;
mod cleared_at;
mod due;
mod enrolling;
mod entries;
mod freshest;
mod logging;
mod marking;
mod member;
mod membership;
mod offsets;
mod on_devices;
mod other_in_sync;
mod own_fields;
mod permitting;
mod remembering;
mod run_counter;
mod sector_lists;
mod spares;
mod stored_marks;
mod taking_back;

pub use agreement::is_resynced;
pub use bad_lists::{list_after, list_with, log_room, remove_chunks};
pub use cleared_at::last_cleared;
pub use due::{make_due, note_recorded};
pub use enrolling::in_sync;
pub use entries::{entries_after, entries_with};
pub use freshest::freshest_header;
pub use logging::note_logged;
pub use marking::{needs_marks, united_marks};
pub use member::Member;
pub use membership::{
    drop_absent_roles, drop_role, has_absent_role, has_newcomer, is_of_array, is_taken,
    joined_superblock, least_free_role, left_its_role, new_number,
};
pub use offsets::{
    admitted_superblock, drop_old_offsets, lower_offset, lower_offsets, note_admitted, says_of,
    set_offsets,
};
pub use on_devices::{bitmap_start, store_fields_on, store_log, store_member, store_superblock};
pub use other_in_sync::has_other_in_sync;
pub use own_fields::is_write_mostly;
pub use permitting::{lists_any, permitted_roles, role_in_sync};
pub use remembering::{chunking_of, members_of};
pub use sector_lists::{add_sectors, list_but_for, list_with_sectors};
pub use spares::kept_spare;
pub use stored_marks::copy_block;
pub use taking_back::taken_back;
