// Why maps are refused. A message is the fault's name and its values, one space between them.
use crate::masks::maps::MapFault;
use md_images::{ImageFault, ImageRefusal};
use std::io;
use thiserror::Error;

/// Why a map is refused.
#[derive(Debug, Drop, Error)]
pub enum MapRefusal {
    /// It is not named as the map of an image that is listed.
    #[error("NotListed")]
    NotListed,
    /// An earlier map is of the same image.
    #[error("Repeated")]
    Repeated,
    /// Its file can't be read.
    #[error("Unread")]
    Unread(io::Error),
    /// Its file is longer than the program takes.
    #[error("TooLong")]
    TooLong,
    /// By its own line it is of the image with this index, counted from 0, and not of that for which it is given.
    #[error("OfImage {0}")]
    OfImage(usize),
    /// Its text is no map of the image.
    #[error("{0}")]
    Map(MapFault),
}

/// Why it is not known what a copy lacks.
#[derive(Debug, Drop, Error)]
pub enum LackingFault {
    /// The image can't be looked at.
    #[error("{0}")]
    Image(ImageFault),
    /// The text is no map of it.
    #[error("{0}")]
    Map(MapFault),
}

/// Why images are not had under their maps.
#[derive(Debug, Drop, Error)]
pub enum MapsFault {
    /// The map with this index, counted from 0.
    #[error("BadMap {0} {1}")]
    BadMap(usize, MapRefusal),
    /// The image word with this index, counted from 0, has a map, and can't be opened to look at it.
    #[error("BadImage {0}")]
    BadImage(usize, ImageRefusal),
    /// There was no memory for the maps.
    #[error("NoMemory")]
    NoMemory,
}

/// Why no map is made of what was read.
#[derive(Debug, Drop, Error)]
pub enum MapOutFault {
    /// There is something under its name already. Nothing is read then.
    #[error("MapOutExists")]
    Exists,
    /// Its file can't be made, and nothing is read then; or written, once all is put out.
    #[error("MapOutFault")]
    Unwritten(io::Error),
    /// There was no memory for it.
    #[error("NoMemory")]
    NoMemory,
}
