// Why a collector refuses a report.
use thiserror::Error;

/// Why a report does not count. Where several reasons stand, the first in this order is named.
#[derive(Clone, Copy, Debug, PartialEq, Eq, Error)]
pub enum Refusal {
    /// An earlier write to the target failed.
    #[error("Spoiled")]
    Spoiled,
    /// The plan does not read the chunk from that source.
    #[error("Stranger")]
    Stranger,
    /// An earlier report of the chunk counted, whether its bytes were delivered or not.
    #[error("Double")]
    Double,
    /// The delivered bytes are not as many as the chunk has.
    #[error("Length")]
    Length,
    /// The target could not be written.
    #[error("TargetFault")]
    TargetFault,
}
