//! The plan of a rebuild as text, and the last line of a rebuild that is done, which lost chunks or sectors.
//!
//! Start with `plan_report`.
mod plan_lines;
mod rebuilt_lines;
mod salvaged_lines;

pub use plan_lines::plan_report;
pub use rebuilt_lines::{rebuilt_line_report, rebuilt_report};
pub(crate) use salvaged_lines::besides;
pub use salvaged_lines::{salvaged_line_report, salvaged_report};
