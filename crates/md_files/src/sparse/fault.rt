// Why no file is made of what is put out, or not all of it, and what to do.
use std::io;
use thiserror::Error;

/// Why what is put out gets no file, or not all of it does.
#[derive(Debug, Drop, Error)]
pub enum OutputFileFault {
    /// There is something under its name already. Nothing is read then.
    #[error("OutputFileExists")]
    Exists,
    /// It could not be written any more. Up to its length it has what was put out.
    #[error("OutputFileFault")]
    Cut(io::Error),
    /// It can't be made, and nothing is read then; or nothing could be written to it, and it is taken away; or it may not
    /// have come to its disk.
    #[error("OutputFileFault")]
    Unwritten(io::Error),
}

/// What to do about a file that is not made, or not whole.
pub fn output_file_advice(fault: &OutputFileFault) -> &'static str {
    match fault {
        OutputFileFault::Exists =>
            "it is there already, and may be an image: name a file that is not there yet",
        OutputFileFault::Cut(_) => READ_ON,
        OutputFileFault::Unwritten(_) =>
            "see why the file can't be made (its folder, free space, permissions), and read again",
    }
}

// With `--fill` it has zeros for missing sectors, and these are told only after all is put out.
const READ_ON: &str =
    "what it has is right, up to its length: read the rest into another file; but with `--fill` read all again, since what is missing in it is told nowhere";
