//! What commands do with an opened array: show it, plan a rebuild, stop it, write to it, compare its members, resynchronise
//! it, fail, remove, add, re-add or rebuild a member; `md_read_commands` reads it. This crate opens no images and parses no
//! words: it has a mirror, an input and an output, and it uses the names of images only to print them.
//!
//! Start with the function of a command, as `show_detail` or `write_array`; each has a file of its own.
//! `CommandFault` of `md_refusals` has every reason why a command is refused.
//!
//! ```
//! show_detail(&mirror, &mut out)?;
//! write_array(alloc, &mut mirror, 8, None, &mut input, &watch, &mut out)?;
//! ```
#![tactic(auto)]

mod adding;
mod checking;
mod failing;
mod input;
mod named_member;
mod objects;
mod output;
mod planning;
mod re_adding;
mod rebuilding;
mod removing;
mod resyncing;
mod salvaging;
mod setting_aside;
mod showing;
mod stopped_object;
mod stopping;
mod told_length;
mod writing;
mod writing_pieces;

pub use adding::{add_device, add_device_json};
pub use checking::{check_members, check_members_json, list_mismatches};
pub use failing::fail_member;
pub use md_metadata::RebuildExtent;
pub use planning::{show_plan, show_plan_json};
pub use re_adding::{Returning, re_add_device, re_add_device_json};
pub use rebuilding::{rebuild_member, rebuild_member_json};
pub use removing::remove_member;
pub use resyncing::{resync_array, resync_if_needed};
pub use salvaging::{salvage_member, salvage_member_json};
pub use setting_aside::resync_to_salvage;
pub use showing::{
    show_detail, show_detail_json, show_summary, show_summary_json, show_verbose_detail,
};
pub use stopped_object::stop_array_json;
pub use stopping::stop_array;
pub use writing::write_array;
