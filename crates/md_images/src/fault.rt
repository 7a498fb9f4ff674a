// Why devices are not taken out of their images. A message is the fault's name and its values, one
// space between them.
use crate::image_refusal::ImageRefusal;
use thiserror::Error;

/// Why the devices of image words are not taken out.
#[derive(Debug, Drop, Error)]
pub enum ImagesFault {
    /// The image word with this index, counted from 0, is the same as an earlier one, or its image
    /// can't be opened in the way that is asked for.
    #[error("BadImage {0}")]
    BadImage(usize, ImageRefusal),
    /// There was no memory for the list of words or of devices.
    #[error("NoMemory")]
    NoMemory,
}
