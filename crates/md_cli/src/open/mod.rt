//! How a command on an array opens it.
//!
//! Start with `with_array` (`arrays.rt`), which takes the images, and `open_devices` (`devices.rt`), which makes a mirror of their devices
//! and puts them back. Whether all members in sync are among them: `all_named.rt`. What stands in for a superblock or a bitmap that can't be read: `counted_image.rt`, `in_memory.rt`.

mod all_named;
mod arrays;
mod counted_image;
mod devices;
mod in_memory;
mod opened;

pub(crate) use all_named::check_named;
pub(crate) use arrays::with_array;
pub use counted_image::stand_in_of;
pub(crate) use opened::Opened;
