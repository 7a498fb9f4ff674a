// Why a command is refused. A message is the fault's name and its values, one space between them: the program shows it after
// its own name.
use crate::option_fault::OptionFault;
use md_array::{AddFault, BeginFault, FailFault, OpenFault, ReAddFault, RemoveFault};
use md_check::CheckFault;
use md_copy::RebuildFault;
use md_create::CreateFault;
use md_images::{ImageRefusal, ImagesFault};
use md_members::MemberFault;
use md_metadata::{GrowFault, StopFault};
use md_read::UnreadFault;
use md_resync::ResyncFault;
use md_streams::{SinkFault, SourceFault};
use std::alloc::AllocError;
use thiserror::Error;

/// Why a command whose words were taken is refused. The calls that it makes have faults of their own, which are shown as they
/// are. Those on an opened array come after `Open`.
#[derive(Debug, Drop, Error)]
pub enum CommandFault {
    /// A command on one image is given another number of them.
    #[error("BadCount")]
    BadCount,
    /// The image word with this index, counted from 0, is the same as an earlier one, or its image
    /// can't be opened in the way that the command needs.
    #[error("BadImage {0}")]
    BadImage(usize, ImageRefusal),
    /// The options of `create` or `grow`, or `--data-of`, are refused.
    #[error("{0}")]
    Options(OptionFault),
    /// An image is not read as a member.
    #[error("{0}")]
    Member(MemberFault),
    /// The member has no bitmap.
    #[error("NoBitmap")]
    NoBitmap,
    /// No array can be made of the images.
    #[error("{0}")]
    Create(CreateFault),
    /// The members get no bitmap.
    #[error("{0}")]
    Grow(GrowFault),
    /// A write failed while a new member was laid out on the image of the word with this index,
    /// counted from 0.
    #[error("MetadataFault {0}")]
    MetadataFault(usize),
    /// There was no memory for the command's own lists.
    #[error("NoMemory")]
    NoMemory,
    /// The command asked whether to go on. The answer was not yes, or nobody could be asked.
    #[error("Declined")]
    Declined,
    /// A member in sync is not among the images, and nobody agreed that the command goes on without it. The number is its role in
    /// the array's superblock. No image is changed.
    #[error("NotAll {0}")]
    NotAll(usize),
    /// The images are not opened as an array.
    #[error("{0}")]
    Open(OpenFault),
    /// A read of the input failed.
    #[error("InputFault")]
    InputFault,
    /// There was no memory for the input, or for a piece of the sectors that are read.
    #[error("NoMemory")]
    NoPieceMemory,
    /// The input is longer than the array.
    #[error("OutOfRange")]
    OutOfRange,
    /// The input ends within a sector, or has another length than is known.
    #[error("BadLength")]
    BadLength,
    /// No member has the index that the command names.
    #[error("BadMember")]
    BadMember,
    /// The member is not failed.
    #[error("{0}")]
    Fail(FailFault),
    /// The member is not removed.
    #[error("{0}")]
    Remove(RemoveFault),
    /// The device is not added.
    #[error("{0}")]
    Add(AddFault),
    /// The device is not taken back.
    #[error("{0}")]
    ReAdd(ReAddFault),
    /// The member is not rebuilt, or no rebuild of it is planned.
    #[error("{0}")]
    Rebuild(RebuildFault),
    /// The array is not resynchronised.
    #[error("{0}")]
    Resync(ResyncFault),
    /// Its members are not compared.
    #[error("{0}")]
    Check(CheckFault),
    /// Its sectors are not read.
    #[error("{0}")]
    Read(UnreadFault),
    /// The bytes are not written.
    #[error("{0}")]
    Write(BeginFault),
    /// The array is not stopped.
    #[error("{0}")]
    Stop(StopFault),
    /// The output failed. All else is done; sectors were read as far as they were put out.
    #[error("OutputFault")]
    OutputFault,
}

impl From<ImagesFault> for CommandFault {
    ghost use Rattle.std.specs.Prelude.{◌≡◌};
    ghost use Rattle.md_refusals.specs.Faults.{of_images};

    ghost from_gives = { λ f e. e ≡ of_images f };

    fn from(fault: ImagesFault) -> CommandFault {
        match fault {
            ImagesFault::BadImage(word, refusal) => CommandFault::BadImage(word, refusal),
            ImagesFault::NoMemory => CommandFault::NoMemory,
        }
    }
}

impl From<SourceFault> for CommandFault {
    ghost use Rattle.std.specs.Prelude.{◌≡◌};
    ghost use Rattle.md_refusals.specs.declared.fault.CommandFault.TheVariants.{InputFault};

    ghost from_gives = { λ _ e. e ≡ InputFault };

    fn from(_: SourceFault) -> CommandFault {
        CommandFault::InputFault
    }
}

impl From<AllocError> for CommandFault {
    ghost use Rattle.std.specs.Prelude.{◌≡◌};
    ghost use Rattle.md_refusals.specs.declared.fault.CommandFault.TheVariants.{NoPieceMemory};

    ghost from_gives = { λ _ e. e ≡ NoPieceMemory };

    fn from(_: AllocError) -> CommandFault {
        CommandFault::NoPieceMemory
    }
}

impl From<SinkFault> for CommandFault {
    ghost use Rattle.std.specs.Prelude.{◌≡◌};
    ghost use Rattle.md_refusals.specs.declared.fault.CommandFault.TheVariants.{OutputFault};

    ghost from_gives = { λ _ e. e ≡ OutputFault };

    fn from(_: SinkFault) -> CommandFault {
        CommandFault::OutputFault
    }
}
