//! Reports as JSON: one object each, alone in its line.
//!
//! Start with the report in question: what `md_examine` and this crate say in text has a function of a like name
//! here. What stands on a device though it may be refused is an object of `md_raw_reports`, which is written by `values`.
//!
//! `one_image/`: what one member's image holds.
//! `whole_array/`: an opened array.
//! `rebuilds/`: the plan of a rebuild, and a rebuild that is done.
//!
//! ```
//! superblock_json(&mut out, &superblock)?;
//! ```

mod check_object;
pub(crate) mod one_image;
mod quoting;
mod rebuilds;
mod refusal_object;
pub mod values;
pub(crate) mod whole_array;

pub use check_object::check_json;
pub use one_image::{badblocks_json, bitmap_json, superblock_json};
pub use quoting::put_quoted;
pub use rebuilds::{plan_json, rebuilt_json, salvaged_json};
pub use refusal_object::refusal_json;
pub use whole_array::{detail_json, summary_json};
