//! The reports on a whole array, as text: a mirror in short and in detail, the plan of a rebuild, a rebuild
//! that is done, whatever it loses for a bad sector, and a check.
//!
//! Start with `summary` and `detail`, which are given an opened mirror.
//!
//! `as_text/`: reports as text, line by line.
//! `as_json/`: reports as JSON, and what one image holds too.
//! Both have an opened array in `whole_array/`, and the plan of a rebuild and what it did in `rebuilds/`.
//!
//! ```
//! summary(&mut out, &mirror)?;
//! detail(&mut out, &mirror)?;
//! ```
#![tactic(auto)]

pub mod as_json;
mod as_text;
mod recovery;

pub use as_json::{
    badblocks_json, bitmap_json, check_json, detail_json, plan_json, put_quoted, rebuilt_json,
    refusal_json, salvaged_json, summary_json, superblock_json,
};
pub use as_text::{
    check_list_report, check_report, detail, plan_report, rebuilt_line_report, rebuilt_report,
    salvaged_line_report, salvaged_report, summary, verbose_detail,
};
pub use recovery::Recovery;
