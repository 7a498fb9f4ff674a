//! An opened array as JSON, in short and in detail. `member_objects.rt` has the members with their images, which the objects of
//! a check and of a plan have too.
//!
//! Start with `summary_json` and `detail_json`.
mod array_objects;
mod kernel_field;
pub(crate) mod member_objects;
mod recovering_list;
pub(crate) mod standing_lists;

pub use array_objects::{detail_json, summary_json};
