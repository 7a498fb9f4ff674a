//! Images by name: devices that are taken out under names and put back, images in memory, overlays laid over devices that
//! are only looked at, and devices whose reads and writes are watched.
//!
//! Start with the trait `Images`, and with `take_images` and `put_back`: a command has all its images, or
//! none.
//!
//! ```
//! let words = image_list(alloc, &["sda.img", "sdb.img"], MissingWord::NamesAnImage)?;
//! let devices = take_images(alloc, Access::Look, &mut images, &words)?;
//! put_back(&mut images, &words, devices);
//! ```
#![tactic(auto)]

mod access;
mod fault;
mod image_fault;
mod image_refusal;
mod image_word;
mod images;
mod memory_images;
mod overlays;
mod pieces;
mod seen;
mod shared_read;
mod taking;
mod traffic;
mod watched;

pub use access::Access;
pub use fault::ImagesFault;
pub use image_fault::ImageFault;
pub use image_refusal::ImageRefusal;
pub use image_word::{ImageWord, MissingWord, image_list, is_missing};
pub use images::Images;
pub use memory_images::MemImages;
pub use overlays::lay_over;
pub use seen::Seen;
pub use shared_read::SharedRead;
pub use taking::{put_back, take_images};
pub use traffic::Traffic;
pub use watched::Watched;
