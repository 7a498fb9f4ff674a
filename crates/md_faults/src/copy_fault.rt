// Why sectors are not copied to a member. Members are named by their indices.
use thiserror::Error;

/// Why sectors are not copied to a member.
#[derive(Clone, Copy, Debug, PartialEq, Eq, Error)]
pub enum CopyFault {
    /// The write failed, and the mirror is halted: no other member is in sync, or the count can't rise.
    #[error("Halted")]
    Halted,
    /// The write failed, and the member is faulty now.
    #[error("MemberFailed {0}")]
    MemberFailed(usize),
}
