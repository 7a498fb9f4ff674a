//! Reports as text, line by line.
//!
//! Start with `detail`.
//!
//! `whole_array/`: an opened array.
//! `rebuilds/`: the plan of a rebuild, and a rebuild that is done.
mod check_line;
mod rebuilds;
mod whole_array;

pub use check_line::{check_list_report, check_report};
pub(crate) use rebuilds::besides;
pub use rebuilds::{
    plan_report, rebuilt_line_report, rebuilt_report, salvaged_line_report, salvaged_report,
};
pub use whole_array::{detail, summary, verbose_detail};
