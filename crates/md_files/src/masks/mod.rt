//! Copies of disks that lack sectors: the map that ddrescue writes of a copy, the device over it that does not give
//! what the disk did not give, and images under such masks.
//!
//! Start with `read_map`, which reads a map; `MaskedDevice` is a copy under one, `MaskedImages` are images of which some are.
//!
//! `maps/`: the map file of ddrescue.
//! `device/`: a disk as its copy has it.
//! `images/`: images that are copies of disks, by the maps of what each lacks.
//!
//! ```
//! let missing = read_map(alloc, &text, size)?;
//! let mut disk = MaskedDevice::new(copy, missing);
//! let answer = disk.read(8, &mut sector);
//! ```

mod device;
mod images;
mod maps;

pub use device::MaskedDevice;
pub use images::{
    LackingFault, MapOutFault, MapRefusal, MapText, MapWord, MapsFault, MaskedImages, map_advice,
    map_list, map_out_advice, mask_images, strange_command,
};
pub use maps::{Block, LineFault, MapFault, command_of, read_map, write_map, write_map_of_read};
