//! What is noticed of an array and its images, and the lines that say it: which image was used without the others,
//! which member dropped out or lists more bad sectors, which sectors no member gives, which device was not named,
//! why a kernel may not be given the array, and what an image holds that is to be overwritten. But
//! for what looks at images (`held/`, `signatures/`) no function takes memory, and none uses a device.
//!
//! Start with `members_parted` and `members_dropped` (`noticing.rt`), which tell of each member, and with the
//! lines, which `lines.rt` has.
//!
//! `signatures/`: signatures on a device.
//! `held/`: what a device holds before `create` or `add` overwrites it, for the warning.
//!
//! ```
//! let parted = members_parted(&mirror);
//! if parted[1] {
//!     parted_line(&mut err, "sdb.img", "sda.img")?;
//! }
//! ```
#![tactic(auto)]

mod belonging;
mod dropping_out;
mod held;
mod kernel;
mod lines;
mod listed_sectors;
mod lost_sectors;
mod noticing;
mod parting;
mod signatures;
mod standing_lines;
mod ungiven_chunks;
mod ungiven_chunks_line;
mod unnamed;

pub use belonging::{is_forgotten, standing};
pub use dropping_out::dropped_out;
pub use held::{Held, held_on, held_on_each};
pub use kernel::{Unready, unready_for_kernel, unready_line};
pub use lines::{
    chunks_lost_line, dropped_line, forgotten_line, held_line, listed_line, lost_line, marked_line,
    parted_line, uncompared_line, ungiven_line, unnamed_line, unread_line, unseen_line,
};
pub use listed_sectors::{count_sectors, members_listing, members_listing_more};
pub use lost_sectors::{Lost, find_lost};
pub use noticing::{
    Asked, MAX_MEMBERS, MAX_ROLES, in_sync_count, is_place, members_dropped, members_marked,
    members_parted, roles_unnamed, states_of,
};
pub use parting::{first_in_sync, is_parted, was_apart};
pub use signatures::{Look, SIGNATURES, Signature, find_signatures};
pub use standing_lines::standing_line;
pub use ungiven_chunks::{UngivenChunks, chunks_ungiven};
pub use ungiven_chunks_line::chunks_ungiven_line;
pub use unnamed::unnamed_in;
