//! The plan of a rebuild as JSON, and a rebuild that is done, which lost chunks or sectors.
//!
//! Start with `plan_json`.
mod plan_object;
mod rebuilt_object;
mod salvaged_object;

pub use plan_object::plan_json;
pub use rebuilt_object::rebuilt_json;
pub use salvaged_object::salvaged_json;
