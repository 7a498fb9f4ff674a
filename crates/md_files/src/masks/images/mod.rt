//! Images that are copies of disks, by the maps of what each lacks: what a copy lacks is not read of it.
//!
//! Start with `mask_images`, which is given images, their names and the text of each map. `map_list` makes pairs of
//! the words IMAGE=FILE.
//!
//! ```
//! let images = mask_images(alloc, images, &["sda.img", "sdb.img"], &maps)?;
//! ```

mod advice;
mod copies;
mod fault;
mod masked_images;
mod own_lines;
mod words;

pub use advice::{map_advice, map_out_advice};
pub use copies::{MapText, mask_images};
pub use fault::{LackingFault, MapOutFault, MapRefusal, MapsFault};
pub use masked_images::MaskedImages;
pub use own_lines::strange_command;
pub use words::{MapWord, map_list};
