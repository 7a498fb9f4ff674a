//! What one member's image holds, as JSON: its superblock, its bitmap and its bad block log, once they are accepted.
//!
//! Start with `superblock_json`; `run_elements` of `badblocks_object.rt` has the runs of a list for other objects too.
pub(crate) mod badblocks_object;
mod bitmap_object;
mod superblock_object;

pub use badblocks_object::badblocks_json;
pub use bitmap_object::bitmap_json;
pub use superblock_object::superblock_json;
