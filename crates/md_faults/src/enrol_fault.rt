// Why a member that was rebuilt does not come into sync, and why its superblock is not stored before that. Members are named by
// their indices. A message is the fault's name and its values, one space between them.
use thiserror::Error;

/// Why a member that was rebuilt does not come into sync, in the order in which it is looked for. All
/// memory is taken after `LogFull` and before anything is written.
#[derive(Clone, Copy, Debug, PartialEq, Eq, Error)]
pub enum EnrolFault {
    /// The mirror is halted.
    #[error("Halted")]
    Halted,
    /// The event count has to rise and can't.
    #[error("EventsFull")]
    EventsFull,
    /// The log of this member has less room than its list needs then.
    #[error("LogFull {0}")]
    LogFull(usize),
    /// One of the writes failed.
    #[error("TargetFault")]
    TargetFault,
    /// There was no memory.
    #[error("NoMemory")]
    NoMemory,
}

/// Why the superblock of a member that is rebuilt is not stored.
#[derive(Clone, Copy, Debug, PartialEq, Eq, Error)]
pub enum TargetFault {
    /// The mirror is halted.
    #[error("Halted")]
    Halted,
    /// The write failed. The member is as it was.
    #[error("TargetFault")]
    TargetFault,
}
