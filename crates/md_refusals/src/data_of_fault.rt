// Why an image does not count as the device that `--data-of` says. A message is the fault's name and its values, one space
// between them.
use thiserror::Error;

/// Why an image does not count as the device that `--data-of` says. The image is looked at part by part, so that some faults come at
/// more than one place: docs/FORMATS.md has the order.
#[derive(Clone, Copy, Debug, Error)]
pub enum DataOfFault {
    /// The value is not `IMAGE=NUMBER`, where the image is one of those that are listed.
    #[error("BadDataOf")]
    BadDataOf,
    /// The other images make no array.
    #[error("NoArrayBeside")]
    NoArrayBeside,
    /// The image with this index is the device of that number.
    #[error("NumberTaken {0}")]
    NumberTaken(usize),
    /// By the superblocks of the others, or by what can be read of its own, the device of that number is not in sync.
    #[error("NumberNotInSync")]
    NumberNotInSync,
    /// The image has a superblock that can be read: it needs no other, or is none of that device.
    #[error("HasSuperblock")]
    HasSuperblock,
    /// By what can be read of its superblock the image has its data elsewhere than the others, or of another size.
    #[error("DataElsewhere")]
    DataElsewhere,
    /// Its bad block log can't be read: what it lists is not known.
    #[error("LogUnread")]
    LogUnread,
    /// Its data or its bitmap would end past the end of the image, or lie one in the other.
    #[error("DataPastEnd")]
    DataPastEnd,
    /// There was no memory.
    #[error("NoMemory")]
    NoMemory,
}
