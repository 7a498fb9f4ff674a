// Why sectors of an array are not read.
use thiserror::Error;

/// Why sectors of an array are not read. The faults are listed in the order in which they are looked for. A
/// message is the fault's name and its values, one space between them.
#[derive(Clone, Copy, Debug, PartialEq, Eq, Error)]
pub enum UnreadFault {
    /// The mirror is halted.
    #[error("Halted")]
    Halted,
    /// There are no sectors, or some past the end of the array.
    #[error("OutOfRange")]
    OutOfRange,
    /// Members in sync may differ: the array needs a resync first.
    #[error("NotResynced")]
    NotResynced,
    /// No member in sync gave this sector of the array. It is the first of them.
    #[error("Unreadable {0}")]
    Unreadable(u64),
}
