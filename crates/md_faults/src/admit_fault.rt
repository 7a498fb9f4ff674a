// Why a spare is not admitted. A message is the fault's name.
use thiserror::Error;

/// Why a spare is not admitted, in the order in which it is looked for, but that memory is taken before the write.
#[derive(Clone, Copy, Debug, PartialEq, Eq, Error)]
pub enum AdmitFault {
    /// The mirror is halted.
    #[error("Halted")]
    Halted,
    /// Each role is taken, or a superblock has no room for its number.
    #[error("NoRole")]
    NoRole,
    /// The event count has to rise and can't.
    #[error("EventsFull")]
    EventsFull,
    /// The write failed. The member is a spare as before.
    #[error("TargetFault")]
    TargetFault,
    /// There was no memory.
    #[error("NoMemory")]
    NoMemory,
}
