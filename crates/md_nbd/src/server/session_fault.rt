// Why a session ends, though its client has not gone.

/// Why a session is not finished.
#[derive(Clone, Copy, Debug, PartialEq, Eq)]
pub enum SessionFault {
    /// The source has failed.
    Source,
    /// The sink has failed.
    Sink,
    NoMemory,
}
