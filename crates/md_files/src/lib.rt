//! Where commands meet the system: a device in a file or a block device, opened to look at it or to change it, and sinks
//! between what is put out and the system's streams.
//!
//! Start with `FileDevice::open`. The file is locked then, and what the system itself uses can only be looked
//! at.
//!
//! `device/`: a device in a file or a block device.
//! `sparse/`: a sink into a new file in which blocks of zeros become holes, and why such a file is not made.
//! `streams/`: sinks that pass on what they take, in codes or as it is.
//! `masks/`: copies of disks that lack sectors.
//!
//! ```
//! let mut device = FileDevice::open(rt, "sda.img", Access::Look)?;
//! let sectors = device.sectors();
//! device.read(8, &mut block)?;
//! ```
#![tactic(auto)]

mod device;
mod masks;
mod sparse;
mod streams;
mod zeros;

pub use device::{Backing, FileDevice, nodes_unseen};
pub use masks::{
    Block, LackingFault, LineFault, MapFault, MapOutFault, MapRefusal, MapText, MapWord, MapsFault,
    MaskedDevice, MaskedImages, command_of, map_advice, map_list, map_out_advice, mask_images,
    read_map, strange_command, write_map, write_map_of_read,
};
pub use sparse::{HoleFile, OutputFileFault, Sparse, output_file_advice};
pub use streams::{Cleared, CodedJson, Destination, Line, put_coded};
