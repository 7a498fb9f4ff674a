// A device that comes back to its array, and how much of it is rebuilt.
mod extent_of_rebuild;
mod stale_flag;
mod with_extent;

pub use extent_of_rebuild::RebuildExtent;
pub use with_extent::come_back;
