// Why an array is not resynchronised.
use thiserror::Error;

/// Why an array is not resynchronised. Members are named by their indices. The first two change nothing;
/// after any other the array is not resynced, unless it is halted. A message is the fault's name and its
/// values, one space between them.
#[derive(Clone, Copy, Debug, PartialEq, Eq, Error)]
pub enum ResyncFault {
    /// The mirror is halted; or a write failed on the way on a member that can't be made faulty.
    #[error("Halted")]
    Halted,
    /// This request is in flight, and is the first in the order of entry.
    #[error("InFlight {0}")]
    InFlight(u64),
    /// There was no memory for a buffer. No device was used.
    #[error("NoMemory")]
    NoMemory,
    /// This member could not be read in this chunk. No mark is cleared.
    #[error("ReadFault {0} {1}")]
    ReadFault(usize, u32),
    /// A write to this member failed. It is faulty now, and the superblocks of the others have to be stored.
    #[error("MemberFailed {0}")]
    MemberFailed(usize),
}
