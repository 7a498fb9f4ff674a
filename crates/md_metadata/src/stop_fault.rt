// Why an array is not stopped.
use crate::fault::PartFault;
use thiserror::Error;

/// Why an array is not stopped. The faults are listed in the order in which they are looked for, and members
/// are named by their indices. A message is the fault's name and its values, one space between them.
#[derive(Clone, Copy, Debug, PartialEq, Eq, Error)]
pub enum StopFault {
    /// The mirror is halted, perhaps by this very call.
    #[error("Halted")]
    Halted,
    /// The request of this number is in flight. It is the first in the list.
    #[error("InFlight {0}")]
    InFlight(u64),
    /// The event count has to rise and can't.
    #[error("EventsFull")]
    EventsFull,
    /// A write to this member failed. It is faulty now, and the superblocks of the others have to be stored.
    #[error("MemberFailed {0}")]
    MemberFailed(usize),
}

impl From<PartFault> for StopFault {
    ghost use Rattle.std.specs.Prelude.{◌≡◌};
    ghost use Rattle.md_metadata.specs.Faults.{of_part};

    ghost from_gives = { λ f e. e ≡ of_part f };

    fn from(fault: PartFault) -> StopFault {
        match fault {
            PartFault::Halted => StopFault::Halted,
            PartFault::MemberFailed(k) => StopFault::MemberFailed(k),
        }
    }
}
