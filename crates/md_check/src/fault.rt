// Why members are not compared.
use std::alloc::AllocError;
use thiserror::Error;

/// Why members are not compared. Members are named by their indices, and nothing is written whatever the
/// fault. A message is the fault's name and its values, one space between them.
#[derive(Clone, Copy, Debug, PartialEq, Eq, Error)]
pub enum CheckFault {
    /// The mirror is halted.
    #[error("Halted")]
    Halted,
    /// This request is in flight, and is the first in the order of entry.
    #[error("InFlight {0}")]
    InFlight(u64),
    /// This member could not be read in this chunk.
    #[error("ReadFault {0} {1}")]
    ReadFault(usize, u32),
    /// Memory was refused. No device was used.
    #[error("NoMemory")]
    NoMemory,
}

impl From<AllocError> for CheckFault {
    ghost use Rattle.std.specs.Prelude.{◌≡◌};
    ghost use Rattle.md_check.specs.declared.fault.CheckFault.TheVariants.{NoMemory};

    ghost from_gives = { λ _ e. e ≡ NoMemory };

    fn from(_: AllocError) -> CheckFault {
        CheckFault::NoMemory
    }
}
