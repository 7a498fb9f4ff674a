//! What stands on a device though it may be refused, as JSON: a superblock, a bitmap, a bad block log, one object each, alone in
//! its line.
//!
//! Start with `raw_super_json`: what is said in text beside this folder has a function of a like name here. How a value is written
//! is a matter of `md_report`.
//!
//! ```
//! raw_super_json(&mut out, 8, &bytes, &found)?;
//! ```

mod raw_bitmap_object;
mod raw_fields;
mod raw_log_object;
mod raw_super_object;

pub use raw_bitmap_object::raw_bitmap_json;
pub use raw_log_object::raw_log_json;
pub use raw_super_object::raw_super_json;
