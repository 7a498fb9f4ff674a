// Why a part of a whole call does not come to its end.
use md_array::StoreFault;
use thiserror::Error;

/// Why a part of a whole call does not come to its end. A message is the fault's name and its values, one
/// space between them.
#[derive(Clone, Copy, Debug, Error)]
pub enum PartFault {
    /// A write failed on a member that can't be made faulty, and the mirror is halted.
    #[error("Halted")]
    Halted,
    /// A write to this member failed. It is faulty now, and the superblocks of the others have to be stored.
    #[error("MemberFailed {0}")]
    MemberFailed(usize),
}

impl From<StoreFault> for PartFault {
    ghost use Rattle.std.specs.Prelude.{◌≡◌};
    ghost use Rattle.md_metadata.specs.Faults.{of_store};

    ghost from_gives = { λ f e. e ≡ of_store f };

    fn from(fault: StoreFault) -> PartFault {
        match fault {
            StoreFault::MemberFailed(k) => PartFault::MemberFailed(k),
            StoreFault::Halted => PartFault::Halted,
            // No part comes to it: the member that it stores something on is in sync, or kept up to date.
            StoreFault::NotActive => PartFault::Halted,
        }
    }
}
