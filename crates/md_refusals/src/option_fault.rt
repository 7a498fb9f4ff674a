// Why the options of a command are refused. A message is the fault's name, and its values.
use crate::data_of_fault::DataOfFault;
use thiserror::Error;

/// Why a command refuses its options: before any image is touched, but for `--data-of` and `MapOfTarget`. The order in which it is
/// looked for is each command's own, and stands in docs/FORMATS.md.
#[derive(Clone, Copy, Debug, Error)]
pub enum OptionFault {
    /// The level is not RAID 1: `1`, `raid1` or `mirror`.
    #[error("BadLevel")]
    BadLevel,
    /// The array's UUID is not one.
    #[error("BadUuid")]
    BadUuid,
    /// The name has more than 32 bytes.
    #[error("BadName")]
    BadName,
    /// There are not as many image words as members.
    #[error("BadCount")]
    BadCount,
    /// The bitmap that `grow` is to give is not `internal`.
    #[error("BadBitmap")]
    BadBitmap,
    /// The bitmap's chunk size in bytes doesn't fit 32 bits.
    #[error("BadChunk")]
    BadChunk,
    /// The size in sectors doesn't fit 64 bits.
    #[error("BadSize")]
    BadSize,
    /// The member that is rebuilt is recovering, and its image lacks a sector of the array by its map: part of it counts as copied, and
    /// would come into sync as it stands. It comes after the opening.
    #[error("MapOfTarget")]
    MapOfTarget,
    /// The image of `--data-of` does not count as the device that it says.
    #[error("{0}")]
    DataOf(DataOfFault),
}
