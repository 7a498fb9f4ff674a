// Why an image word is refused.
use crate::image_fault::ImageFault;
use thiserror::Error;

/// Why an image word is refused.
#[derive(Debug, Drop, Error)]
pub enum ImageRefusal {
    /// An earlier word is the same.
    #[error("it was named before: name it once")]
    Repeated,
    /// Its image can't be opened in the way that the command needs.
    #[error("{0}")]
    Unopened(ImageFault),
}
