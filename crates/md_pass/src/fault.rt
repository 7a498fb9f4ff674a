// Why a pass ends before its last turn.
use md_device::WriteFault;
use std::alloc::AllocError;
use thiserror::Error;

/// Why a pass ends before its last turn.
#[derive(Clone, Copy, Debug, Error)]
pub enum PassFault {
    /// Memory was refused.
    #[error("NoMemory")]
    NoMemory,
    /// The target could not be written.
    #[error("TargetFault")]
    TargetFault,
}

impl From<AllocError> for PassFault {
    ghost use Rattle.std.specs.Prelude.{◌≡◌};
    ghost use Rattle.md_pass.specs.declared.fault.PassFault.TheVariants.{NoMemory};

    ghost from_gives = { λ _ e. e ≡ NoMemory };

    fn from(_: AllocError) -> PassFault {
        PassFault::NoMemory
    }
}

impl From<md_cert::NoMemory> for PassFault {
    ghost use Rattle.std.specs.Prelude.{◌≡◌};
    ghost use Rattle.md_pass.specs.declared.fault.PassFault.TheVariants.{NoMemory};

    ghost from_gives = { λ _ e. e ≡ NoMemory };

    fn from(_: md_cert::NoMemory) -> PassFault {
        PassFault::NoMemory
    }
}

impl From<WriteFault> for PassFault {
    ghost use Rattle.std.specs.Prelude.{◌≡◌};
    ghost use Rattle.md_pass.specs.declared.fault.PassFault.TheVariants.{TargetFault};

    ghost from_gives = { λ _ e. e ≡ TargetFault };

    fn from(_: WriteFault) -> PassFault {
        PassFault::TargetFault
    }
}
