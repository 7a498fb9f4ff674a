// Why a device is not read as a member. A message is the fault's name and its values, one space
// between them.
use md_badblocks::LogFault;
use md_bitmap::BitmapFault;
use md_super::SuperFault;
use thiserror::Error;

/// Why a device is not read as a member, in the order in which it is looked for.
#[derive(Clone, Copy, Debug, PartialEq, Eq, Error)]
pub enum MemberFault {
    /// It has fewer than 16 sectors.
    #[error("TooShort")]
    TooShort,
    /// A read failed.
    #[error("ReadFault")]
    ReadFault,
    /// Sectors 8 to 15 hold no superblock of ours.
    #[error("Super {0}")]
    Super(SuperFault),
    /// The size is 0 or above that of the data area, the log is above 8 sectors, or the areas of the
    /// superblock, the data, the log and the bitmap are not on the device or not apart.
    #[error("Region")]
    Region,
    /// The bitmap's header is none of ours, or the array has too many chunks of its size.
    #[error("Bitmap {0}")]
    Bitmap(BitmapFault),
    /// The bad block log can't be read.
    #[error("Log {0}")]
    Log(LogFault),
    /// There was no memory.
    #[error("NoMemory")]
    NoMemory,
}
