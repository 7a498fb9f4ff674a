// Why a read can't go on, and what to do.
use std::alloc::AllocError;
use std::io::{self, ErrorKind};
use thiserror::Error;

/// What is another than it was.
#[derive(Clone, Copy, Debug, Error)]
pub enum Difference {
    /// The file's name.
    #[error("Output")]
    Output,
    /// The first sector, the count, or `--fill`.
    #[error("Options")]
    Options,
    /// How many images there are.
    #[error("Images")]
    Images,
    /// The image with this index, counted from 0, or its map.
    #[error("Image {0}")]
    Image(usize),
    /// The file, of this name: its device, its inode, or when it was made.
    #[error("File")]
    File,
}

/// One of the two files.
#[derive(Clone, Copy, Debug)]
pub enum Kept {
    Output,
    Map,
}

/// Why a read can't go on into the files that are there. Nothing is read or changed then.
#[derive(Debug, Drop, Error)]
pub enum ResumeFault {
    /// Of the file and its map one is there without the other.
    #[error("ResumeMissing")]
    Missing,
    /// What is there is no map that a read which may go on has made, or was changed since.
    #[error("ResumeMap")]
    NoMap,
    /// The map is of another read.
    #[error("ResumeDiffers {0}")]
    Differs(Difference),
    /// The file is not as its map says: it is shorter, what stands in it ends otherwise, or it has more behind that than a read which is
    /// interrupted leaves, or anything where nothing stands.
    #[error("ResumeOutput")]
    BadOutput,
    /// This one is in use, or is one of the images, or both have one name.
    #[error("ResumeInUse")]
    InUse(Kept),
    /// This one can't be opened or read, or is no regular file.
    #[error("ResumeFault")]
    Unopened(Kept, io::Error),
    #[error("NoMemory")]
    NoMemory,
}

impl ResumeFault {
    /// Why one of the files could not be opened or read.
    pub(crate) fn of_io(kept: Kept, error: io::Error) -> ResumeFault {
        match error.kind() {
            ErrorKind::OutOfMemory => ResumeFault::NoMemory,
            ErrorKind::WouldBlock => ResumeFault::InUse(kept),
            _ => ResumeFault::Unopened(kept, error),
        }
    }

    /// Of which of the files it is.
    pub fn which_file(&self) -> Kept {
        match self {
            ResumeFault::InUse(kept) | ResumeFault::Unopened(kept, _) => *kept,
            ResumeFault::Missing
            | ResumeFault::BadOutput
            | ResumeFault::Differs(Difference::File | Difference::Output) => Kept::Output,
            ResumeFault::NoMap | ResumeFault::Differs(_) | ResumeFault::NoMemory => Kept::Map,
        }
    }
}

impl From<AllocError> for ResumeFault {
    fn from(_: AllocError) -> ResumeFault {
        ResumeFault::NoMemory
    }
}

/// What to do about it.
pub fn resume_advice(fault: &ResumeFault) -> &'static str {
    match fault {
        ResumeFault::Missing => {
            "of the file and its map one is there without the other: name both that were made together, or names of which neither is there yet"
        }
        ResumeFault::NoMap => {
            "it is no map of a read with `--resume`, or was changed since: name the one that was made with the file, or names of which neither is there yet"
        }
        ResumeFault::Differs(_) => {
            "it would go on with other data: give the file, the options, images and maps of before, in their order and as they were then; or read anew, into another file"
        }
        ResumeFault::BadOutput => {
            "the file is not as its map says, so that it is another, or something else changed it, or the read was ended in its first moments: name the one that was made with the map, or read anew, into another file"
        }
        ResumeFault::InUse(_) => {
            "another command writes it, or it is one of the images, or the file and the map have one name: wait until that has ended, or name another file"
        }
        ResumeFault::Unopened(_, _) => {
            "see why it can't be opened and locked (its folder, permissions, whether it is a regular file), and name another file"
        }
        ResumeFault::NoMemory => "let it use more memory",
    }
}
