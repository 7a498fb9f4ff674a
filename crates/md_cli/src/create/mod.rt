//! The command that makes an array of images.
//!
//! Start with `create_images` (`creating.rt`). From its options to what is made: `create_options.rt`, `set_uuid.rt`, `sizing.rt`. The
//! members are laid out by `lay_out_each.rt`, and shown by `show_devices.rt`.

mod create_options;
mod creating;
mod lay_out_each;
mod set_uuid;
mod show_devices;
mod shown_names;
mod sizing;

pub(crate) use create_options::{bytes_of, params_of};
pub(crate) use creating::create_images;
pub(crate) use show_devices::show_devices;
