// Why a new device is not added. A message is the fault's name.
use thiserror::Error;

/// Why a new device is not added, in the order in which it is looked for, but that memory is taken before the first
/// write.
#[derive(Clone, Copy, Debug, PartialEq, Eq, Error)]
pub enum AddFault {
    /// The mirror is halted.
    #[error("Halted")]
    Halted,
    /// The device has fewer sectors than the array and 2048 more.
    #[error("TooSmall")]
    TooSmall,
    /// There are 64 members.
    #[error("Full")]
    Full,
    /// The event count has to rise and can't.
    #[error("EventsFull")]
    EventsFull,
    /// The device could not be laid out.
    #[error("WriteFault")]
    WriteFault,
    /// There was no memory, before anything was written.
    #[error("NoMemory")]
    NoMemory,
}
