// Why a block is refused.
use std::alloc::AllocError;
use thiserror::Error;

/// Why bytes are not taken as a superblock, in the order in which it is looked for. The message is
/// the variant's name with its value.
#[derive(Clone, Copy, Debug, PartialEq, Eq, Error)]
pub enum SuperFault {
    /// The magic number is not that of md.
    #[error("Magic")]
    Magic,
    /// The major version is not 1.
    #[error("Major")]
    Major,
    /// There are more roles than 4096 bytes have room for.
    #[error("MaxDev")]
    MaxDev,
    /// The checksum is not that of the bytes.
    #[error("Checksum")]
    Checksum,
    /// The superblock says that it stands elsewhere than at sector 8.
    #[error("SuperOffset")]
    SuperOffset,
    /// These bits of the feature map are of no array here: a reshape, a replacement, a journal, ..
    #[error("Feature {0}")]
    Feature(u32),
    /// The level is not RAID-1.
    #[error("Level")]
    Level,
    /// There are no raid disks, or more than 32.
    #[error("RaidDisks")]
    RaidDisks,
    /// There was no memory for the roles.
    #[error("NoMemory")]
    NoMemory,
}

impl From<AllocError> for SuperFault {
    ghost use Rattle.std.specs.Prelude.{◌≡◌};
    ghost use Rattle.md_super.specs.declared.fault.SuperFault.TheVariants.{NoMemory};

    ghost from_gives = { λ _ e. e ≡ NoMemory };

    fn from(_error: AllocError) -> SuperFault {
        SuperFault::NoMemory
    }
}
