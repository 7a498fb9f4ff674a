// Why a read does not go on, and does not begin.
use crate::map::{Kept, ResumeFault};
use md_files::{MapOutFault, OutputFileFault};
use md_images::ImageFault;
use std::alloc::AllocError;
use std::io::{self, ErrorKind};

/// Why it does not go on and does not begin.
#[derive(Drop)]
pub enum ResumeRefusal {
    /// The image with this index can't be looked at.
    Image(usize, ImageFault),
    Resume(ResumeFault),
    Output(OutputFileFault),
    Map(MapOutFault),
}

/// Why the file that is there could not be read.
pub(crate) fn unread_output(error: io::Error) -> ResumeFault {
    ResumeFault::of_io(Kept::Output, error)
}

/// Why the file could not be made or written.
pub(crate) fn unwritten_output(error: io::Error) -> ResumeRefusal {
    match error.kind() {
        ErrorKind::OutOfMemory => no_memory(),
        // What came there since it was looked for may be its own map.
        ErrorKind::WouldBlock | ErrorKind::AlreadyExists => {
            ResumeRefusal::Resume(ResumeFault::InUse(Kept::Output))
        }
        _ => ResumeRefusal::Output(OutputFileFault::Unwritten(error)),
    }
}

/// Why the map could not be made or written.
pub(crate) fn unwritten_map(error: io::Error) -> ResumeRefusal {
    match error.kind() {
        ErrorKind::OutOfMemory => no_memory(),
        ErrorKind::WouldBlock => ResumeRefusal::Resume(ResumeFault::InUse(Kept::Map)),
        _ => ResumeRefusal::Map(MapOutFault::Unwritten(error)),
    }
}

/// There is no memory for it.
pub(crate) fn no_memory() -> ResumeRefusal {
    ResumeRefusal::Resume(ResumeFault::NoMemory)
}

impl From<AllocError> for ResumeRefusal {
    fn from(_: AllocError) -> ResumeRefusal {
        no_memory()
    }
}

impl From<ResumeFault> for ResumeRefusal {
    fn from(fault: ResumeFault) -> ResumeRefusal {
        ResumeRefusal::Resume(fault)
    }
}
