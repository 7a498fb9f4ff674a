// Why a map is refused.
use thiserror::Error;

/// Why a line is refused, in the order in which it is looked for. The message is the variant's name.
#[derive(Clone, Copy, Debug, Error)]
pub enum LineFault {
    /// The text ends within the line.
    #[error("Cut")]
    Cut,
    /// It has not three fields. A status line may have two, without the pass: an older ddrescue wrote none.
    #[error("Fields")]
    Fields,
    /// A position, a size or a pass is no number below 2^64.
    #[error("Number")]
    Number,
    /// The status is none of ddrescue's.
    #[error("Status")]
    Status,
    /// The block begins before the end of the one before.
    #[error("Overlap")]
    Overlap,
    /// The block begins past the end of the one before, or the first one past 0.
    #[error("Gap")]
    Gap,
    /// The block ends past the end of the image.
    #[error("PastEnd")]
    PastEnd,
}

/// Why a text is no map of an image. The first line that is refused says why; the other faults come where none is.
#[derive(Clone, Copy, Debug, Error)]
pub enum MapFault {
    /// The line of this number, from 1.
    #[error("Line {number} {fault}")]
    Line { number: u64, fault: LineFault },
    /// There is no line but comments.
    #[error("NoStatusLine")]
    NoStatusLine,
    /// The blocks end at this byte, before the end of the image.
    #[error("EndsAt {0}")]
    EndsAt(u64),
    /// There was no memory for the runs.
    #[error("NoMemory")]
    NoMemory,
}
