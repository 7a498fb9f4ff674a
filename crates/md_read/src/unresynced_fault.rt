// Why sectors of an array that is not resynced are not read.
use thiserror::Error;

/// Why sectors of an array that is not resynced are not read. The first two are looked for in this order, before a
/// device is used. A message is the fault's name and its values, one space between them.
#[derive(Clone, Copy, Debug, PartialEq, Eq, Error)]
pub enum UnresyncedFault {
    /// The mirror is halted.
    #[error("Halted")]
    Halted,
    /// There are no sectors, or some past the end of the array.
    #[error("OutOfRange")]
    OutOfRange,
    /// No member in sync gave this sector of the array. It is the first of them.
    #[error("Unreadable {0}")]
    Unreadable(u64),
    /// This member, from which a resync would copy this sector of the array, could not be read there. It is the first of
    /// them.
    #[error("ReadFault {0} {1}")]
    ReadFault(usize, u64),
}
