// Why an array gets no bitmap. A message is the fault's name and its values, one space between them.
use md_array::OpenFault;
use md_assembly::AssembleFault;
use md_members::MemberFault;
use std::alloc::AllocError;
use thiserror::Error;

/// Why an array gets no bitmap, in the order in which it is looked for. A device is named by its index in the list.
#[derive(Clone, Copy, Debug, Error)]
pub enum GrowFault {
    /// The device is not read as a member.
    #[error("Member {0} {1}")]
    Member(usize, MemberFault),
    /// A chunk's bytes are no power of two, are fewer than 512, or the first member's array has more than 2^20 chunks of this size.
    #[error("BadChunk")]
    BadChunk,
    /// No page of the first 16 MiB after the superblock begins room on each member, before its data and beside its bad block log.
    #[error("NoRoom")]
    NoRoom,
    /// The members, as they would be with the bitmap, make no array.
    #[error("Assemble {0}")]
    Assemble(AssembleFault),
    /// Each member has a bitmap already.
    #[error("HasBitmap")]
    HasBitmap,
    /// The member is not in sync; the first such member is named.
    #[error("NotInSync {0}")]
    NotInSync(usize),
    /// A write failed on this member.
    #[error("MetadataFault {0}")]
    MetadataFault(usize),
    /// There was no memory.
    #[error("NoMemory")]
    NoMemory,
}

impl From<AssembleFault> for GrowFault {
    ghost use Rattle.std.specs.Prelude.{◌≡◌};
    ghost use Rattle.md_metadata.specs.Grow.Faults.{grow_refusal_of};

    ghost from_gives = { λ f e. e ≡ grow_refusal_of f };

    fn from(fault: AssembleFault) -> GrowFault {
        match fault {
            AssembleFault::NoMemory => GrowFault::NoMemory,
            _ => GrowFault::Assemble(fault),
        }
    }
}

impl From<OpenFault> for GrowFault {
    ghost use Rattle.std.specs.Prelude.{◌≡◌};
    ghost use Rattle.md_metadata.specs.Grow.Faults.{reading_refusal_of};

    ghost from_gives = { λ f e. e ≡ reading_refusal_of f };

    // A fault in reading the members becomes one of the first two.
    fn from(fault: OpenFault) -> GrowFault {
        match fault {
            OpenFault::Member(k, fault) => GrowFault::Member(k, fault),
            _ => GrowFault::NoMemory,
        }
    }
}

impl From<AllocError> for GrowFault {
    ghost use Rattle.std.specs.Prelude.{◌≡◌};
    ghost use Rattle.md_metadata.specs.declared.bitmap_grow.fault.GrowFault.TheVariants.{NoMemory};

    ghost from_gives = { λ _ e. e ≡ NoMemory };

    fn from(_: AllocError) -> GrowFault {
        GrowFault::NoMemory
    }
}
