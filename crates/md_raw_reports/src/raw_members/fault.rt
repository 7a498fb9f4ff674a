// Why a part of a member is not read.
use thiserror::Error;

/// Why the bytes of a part of a member are not read, in the order in which it is looked for. That a read failed is none: what could
/// not be read is said beside what could.
#[derive(Clone, Copy, Debug, Error)]
pub enum RawFault {
    /// The device has fewer than 16 sectors.
    #[error("TooShort")]
    TooShort,
    /// The superblock has no bitmap.
    #[error("NoBitmap")]
    NoBitmap,
    /// The place that the superblock gives is not on the device, or the log is above 8 sectors.
    #[error("Region")]
    Region,
}
