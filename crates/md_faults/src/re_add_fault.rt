// Why a device that left is not taken back. A message is the fault's name and its values, one space between them.
use md_members::MemberFault;
use thiserror::Error;

/// Why a device that left is not taken back, in the order in which it is looked for. Not so `NoMemory`: memory is taken
/// as the device is read and before the write, so that it comes before `WriteFault`.
#[derive(Clone, Copy, Debug, PartialEq, Eq, Error)]
pub enum ReAddFault {
    /// The mirror is halted.
    #[error("Halted")]
    Halted,
    /// The device is not read as a member.
    #[error("Member {0}")]
    Member(MemberFault),
    /// There are 64 members.
    #[error("Full")]
    Full,
    /// It is of another array, or of another size, number of raid disks or chunk size; its number is in use; it has
    /// no bitmap or was being rebuilt; its events are below those at which marks were last cleared or above the
    /// array's; or it had no role.
    #[error("NotReAddable")]
    NotReAddable,
    /// Another member has its role.
    #[error("NoRole")]
    NoRole,
    /// The event count has to rise and can't.
    #[error("EventsFull")]
    EventsFull,
    /// Its superblock could not be written.
    #[error("WriteFault")]
    WriteFault,
    /// There was no memory, to read the device or before the write.
    #[error("NoMemory")]
    NoMemory,
}
