//! The images of a command: in files, under their paths, and under the maps of those that lack sectors.
//!
//! Start with `FileImages`, whose devices are counted and kept apart. `masked_images` lays the maps of `--map` over them, and
//! `goes_on_over` asks about maps that are perhaps other copies'. `device_paths` names all block devices, if `scan` is given no image.
//!
//! ```
//! let files = FileImages::new(rt, &progress, false);
//! let masked = masked_images(rt, &request, files, &mut err)?;
//! ```

mod all_devices;
mod files;
mod maps;
mod stray_data;
mod unlisted;
mod unseen_mounts;

pub use all_devices::{DEVICE_LIST, device_paths, scan_of_all};
pub use files::FileImages;
pub use maps::{Masked, masked_images};
pub use stray_data::goes_on_over;
pub use unlisted::{rebuilt_from, tell_unlisted};
