// Why members make no array. A message is the fault's name and its values, one space between them.
use std::alloc::AllocError;
use thiserror::Error;

/// Why members make no array, in the order in which it is looked for: each check is made over all
/// members before the next. A member is named by its index in the list; the index or the role named
/// is the least.
#[derive(Clone, Copy, Debug, PartialEq, Eq, Error)]
pub enum AssembleFault {
    /// There is no member.
    #[error("Empty")]
    Empty,
    /// There are more than 64 members.
    #[error("TooMany")]
    TooMany,
    /// The member is of another array than the first.
    #[error("Stranger {0}")]
    Stranger(usize),
    /// Two members, the first of them listed earlier, have one device number.
    #[error("DoubleNumber {0} {1}")]
    DoubleNumber(usize, usize),
    /// The member has no bitmap.
    #[error("NoBitmap {0}")]
    NoBitmap(usize),
    /// The member's size, its raid disks or the chunks of its bitmap are not the first's.
    #[error("Geometry {0}")]
    Geometry(usize),
    /// Two members that are in sync or recovering have this role.
    #[error("DoubleRole {0}")]
    DoubleRole(u16),
    /// No member is in sync.
    #[error("NotEnough")]
    NotEnough,
    /// There was no memory.
    #[error("NoMemory")]
    NoMemory,
}

impl From<AllocError> for AssembleFault {
    ghost use Rattle.std.specs.Prelude.{◌≡◌};
    ghost use Rattle.md_assembly.specs.declared.fault.AssembleFault.TheVariants.{NoMemory};

    ghost from_gives = { λ _ e. e ≡ NoMemory };

    fn from(_error: AllocError) -> AssembleFault {
        AssembleFault::NoMemory
    }
}
