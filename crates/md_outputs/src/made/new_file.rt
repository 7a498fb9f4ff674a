// A new file that gets what is put out.
ghost use Rattle.std.specs.Prelude.{◌≡◌, None, is_some, true, ⊤};

use crate::made::made_file::{MadeFile, sync_folder};
use md_files::{HoleFile, OutputFileFault};
use md_streams::SinkFault;
use std::fs::{File, Files};
use std::io::{self, ErrorKind};
use std::os::unix::fs::FileExt;

/// A new file that is written from its start to its end, with holes. What a file holds is not known.
#[derive(Drop)]
pub struct NewFile<'a, R> {
    rt: &'a R,
    made: MadeFile,
    // How far it is written.
    at: u64,
    // Why it could not be written any more: the first reason.
    fault: Option<io::Error>,
}

impl<'a, R: Files<File = File>> NewFile<'a, R> {
    /// Makes the file, empty. Nothing that is there is overwritten: it may be an image.
    pub fn make(rt: &'a R, path: &str) -> Result<NewFile<'a, R>, OutputFileFault> {
        let made = MadeFile::make(rt, path).map_err(making_fault)?;
        Ok(NewFile {
            rt,
            made,
            at: 0,
            fault: None,
        })
    }

    /// Ends the file, which was made under this name. If nothing was written, the file is removed. Otherwise it is as long as what
    /// was written, and it is synced with its name. The fault says why this failed, or why writing to it stopped earlier.
    pub fn end(self, path: &str) -> Result<(), OutputFileFault> {
        let NewFile {
            rt,
            made,
            at,
            fault,
        } = self;
        if at == 0 {
            made.take_away(rt, path);
            return match fault {
                Some(error) => Err(OutputFileFault::Unwritten(error)),
                None => Ok(()),
            };
        }
        let length = made.file().set_len(at);
        made.file().sync_data().map_err(OutputFileFault::Unwritten)?;
        sync_folder(rt, path).map_err(OutputFileFault::Unwritten)?;
        match fault.or(length.err()) {
            Some(error) => Err(OutputFileFault::Cut(error)),
            None => Ok(()),
        }
    }

    // What is written fails for this reason. The first one is kept: the others follow from it.
    fn fail(&mut self, error: io::Error) -> SinkFault
        ensures { is_some self.new.fault ≡ true }
    {
        if self.fault.is_none() {
            self.fault = Some(error);
        }
        SinkFault
    }
}

// Why it can't be made.
fn making_fault(error: io::Error) -> OutputFileFault {
    if error.kind() == ErrorKind::AlreadyExists {
        return OutputFileFault::Exists;
    }
    OutputFileFault::Unwritten(error)
}

impl<'a, R: Files<File = File>> HoleFile for NewFile<'a, R> {
    ghost contents = { λ _. None };

    ghost failed = { λ f. is_some f.fault };

    ghost is_whole = { λ _. ⊤ };

    fn write(&mut self, bytes: &[u8]) -> Result<(), SinkFault> {
        let written = self.made.file().write_all_at(bytes, self.at);
        if let Err(error) = written {
            return Err(self.fail(error));
        }
        self.at = self.at.saturating_add(bytes.len() as u64);
        Ok(())
    }

    fn skip(&mut self, bytes: usize) -> Result<(), SinkFault> {
        self.at = self.at.saturating_add(bytes as u64);
        Ok(())
    }

    fn finish(&mut self) -> Result<(), SinkFault> {
        let lengthened = self.made.file().set_len(self.at);
        if let Err(error) = lengthened {
            return Err(self.fail(error));
        }
        Ok(())
    }
}
