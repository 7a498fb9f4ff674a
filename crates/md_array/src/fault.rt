// Why devices are not opened as a mirror. A message is the fault's name and its values, one space
// between them.
use md_assembly::AssembleFault;
use md_members::MemberFault;
use std::alloc::AllocError;
use thiserror::Error;

/// Why devices are not opened as a mirror, in the order in which it is looked for. A device is named
/// by its index in the list.
#[derive(Clone, Copy, Debug, PartialEq, Eq, Error)]
pub enum OpenFault {
    /// The device is not read as a member.
    #[error("Member {0} {1}")]
    Member(usize, MemberFault),
    /// The members make no array.
    #[error("Assemble {0}")]
    Assemble(AssembleFault),
    /// A write of the marks failed on this member.
    #[error("MetadataFault {0}")]
    MetadataFault(usize),
    /// There was no memory.
    #[error("NoMemory")]
    NoMemory,
}

impl From<AllocError> for OpenFault {
    ghost use Rattle.std.specs.Prelude.{◌≡◌};
    ghost use Rattle.md_array.specs.declared.fault.OpenFault.TheVariants.{NoMemory};

    ghost from_gives = { λ _ e. e ≡ NoMemory };

    fn from(_: AllocError) -> OpenFault {
        OpenFault::NoMemory
    }
}
