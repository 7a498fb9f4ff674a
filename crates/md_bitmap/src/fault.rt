// Why a bitmap is refused.
use thiserror::Error;

/// Why bytes are not taken as a bitmap's header.
#[derive(Clone, Copy, Debug, PartialEq, Eq, Error)]
pub enum BitmapFault {
    #[error("Magic")]
    Magic,
    #[error("Version")]
    Version,
    #[error("ChunkSize")]
    ChunkSize,
    #[error("TooManyChunks")]
    TooManyChunks,
}
