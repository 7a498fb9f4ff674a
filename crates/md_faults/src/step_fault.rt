// Why a step is refused, or fails. The faults of each are listed in the order in which they are looked for, and members are named
// by their indices. A message is the fault's name and its values, one space between them.
use thiserror::Error;

/// Why a request does not begin.
#[derive(Clone, Copy, Debug, PartialEq, Eq, Error)]
pub enum BeginFault {
    /// The mirror is halted.
    #[error("Halted")]
    Halted,
    /// It has no sectors, or some past the end of the array.
    #[error("OutOfRange")]
    OutOfRange,
    /// The request of this number has a sector in common with it. It is the first of them in the list.
    #[error("Overlaps {0}")]
    Overlaps(u64),
    /// Members in sync may differ: the array needs a resync first.
    #[error("NotResynced")]
    NotResynced,
    /// The event count has to rise and can't.
    #[error("EventsFull")]
    EventsFull,
    /// All numbers of requests were given out.
    #[error("NumbersSpent")]
    NumbersSpent,
    /// There was no memory.
    #[error("NoMemory")]
    NoMemory,
}

/// Why a member's superblock or marks are not stored.
#[derive(Clone, Copy, Debug, PartialEq, Eq, Error)]
pub enum StoreFault {
    /// The mirror is halted, perhaps by this very call.
    #[error("Halted")]
    Halted,
    /// The member's superblock is not kept up to date; for marks, the member is not in sync.
    #[error("NotActive")]
    NotActive,
    /// The write failed, and the member is faulty now.
    #[error("MemberFailed {0}")]
    MemberFailed(usize),
}

/// Why a member does not get a request's bytes.
#[derive(Clone, Copy, Debug, PartialEq, Eq, Error)]
pub enum WriteMemberFault {
    /// The mirror is halted, perhaps by this very call.
    #[error("Halted")]
    Halted,
    /// The member is not in sync.
    #[error("NotActive")]
    NotActive,
    /// This member in sync has not stored a mark of each of the request's chunks.
    #[error("NotMarked {0}")]
    NotMarked(usize),
    /// The superblock of this member in sync has to be stored first.
    #[error("NotRecorded {0}")]
    NotRecorded(usize),
    /// The member has the bytes already.
    #[error("AlreadyWritten")]
    AlreadyWritten,
    /// The write failed, and the member is faulty now.
    #[error("MemberFailed {0}")]
    MemberFailed(usize),
}

/// Why a request stays in flight.
#[derive(Clone, Copy, Debug, PartialEq, Eq, Error)]
pub enum FinishFault {
    /// The mirror is halted.
    #[error("Halted")]
    Halted,
    /// This member in sync lacks the request's bytes.
    #[error("Unwritten {0}")]
    Unwritten(usize),
    /// The superblock of this member in sync has to be stored first.
    #[error("MustRecord {0}")]
    MustRecord(usize),
}

/// Why a mark stays.
#[derive(Clone, Copy, Debug, PartialEq, Eq, Error)]
pub enum ClearFault {
    /// The mirror is halted.
    #[error("Halted")]
    Halted,
    /// Members in sync may differ.
    #[error("NotResynced")]
    NotResynced,
    /// Some role has no member in sync.
    #[error("Degraded")]
    Degraded,
    /// The request of this number has a sector of the chunk. It is the first of them in the list.
    #[error("Busy {0}")]
    Busy(u64),
    /// The chunk has no mark.
    #[error("NotMarked")]
    NotMarked,
}

/// Why an array stays active.
#[derive(Clone, Copy, Debug, PartialEq, Eq, Error)]
pub enum CleanFault {
    /// The mirror is halted.
    #[error("Halted")]
    Halted,
    /// The request of this number is in flight. It is the first in the list.
    #[error("InFlight {0}")]
    InFlight(u64),
    /// Members in sync may differ.
    #[error("NotResynced")]
    NotResynced,
    /// It is clean.
    #[error("AlreadyClean")]
    AlreadyClean,
    /// The event count has to rise and can't.
    #[error("EventsFull")]
    EventsFull,
}

/// Why a member is not failed by a call.
#[derive(Clone, Copy, Debug, PartialEq, Eq, Error)]
pub enum FailFault {
    /// The mirror is halted.
    #[error("Halted")]
    Halted,
    /// The member is neither in sync nor recovering.
    #[error("NotActive")]
    NotActive,
    /// No other member is in sync.
    #[error("LastMember")]
    LastMember,
    /// The event count has to rise and can't.
    #[error("EventsFull")]
    EventsFull,
}

/// Why a member is not removed.
#[derive(Clone, Copy, Debug, PartialEq, Eq, Error)]
pub enum RemoveFault {
    /// The mirror is halted.
    #[error("Halted")]
    Halted,
    /// The member is in sync or recovering.
    #[error("StillActive")]
    StillActive,
    /// The member is a spare, so that the event count has to rise, and it can't.
    #[error("EventsFull")]
    EventsFull,
}
