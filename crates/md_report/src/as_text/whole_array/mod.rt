//! An opened array as text: in a line, in detail, and with the images of its members. `member_lines.rt` has the lines on each
//! member, which `verbose_report.rt` takes too.
//!
//! Start with `detail`.
mod detail_report;
mod member_lines;
mod summary_report;
mod verbose_report;

pub use detail_report::detail;
pub use summary_report::summary;
pub use verbose_report::verbose_detail;
