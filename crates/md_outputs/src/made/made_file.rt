// A file that the program made itself.
use std::fs::{self, File, Files, OpenOptions, TryLockError};
use std::io::{self, ErrorKind};
use std::os::unix::fs::{FileExt, MetadataExt};

/// A new file, which is written through the descriptor by which it was made: what comes under its name later, a link to an
/// image perhaps, is not.
#[derive(Drop)]
pub struct MadeFile {
    file: File,
}

impl MadeFile {
    /// Makes the file, empty. Nothing that is there is overwritten: it may be an image.
    pub fn make<R: Files<File = File>>(rt: &R, path: &str) -> io::Result<MadeFile> {
        let file = File::create_new(rt, path)?;
        Ok(MadeFile { file })
    }

    /// Opens one that was made before, to write it. The name, followed to no link's end, has to be that of a regular file.
    pub(crate) fn open<R: Files<File = File>>(rt: &R, path: &str) -> io::Result<MadeFile> {
        if !fs::symlink_metadata(rt, path)?.is_file() {
            return Err(no_file());
        }
        let file = OpenOptions::new().read(true).write(true).open(rt, path)?;
        let made = MadeFile { file };
        made.lock()?;
        if !made.file.metadata()?.is_file() || !made.has_name(rt, path)? {
            return Err(no_file());
        }
        Ok(made)
    }

    /// Locks it against all others, as long as it is open. `WouldBlock` says that another has it.
    pub(crate) fn lock(&self) -> io::Result<()> {
        match self.file.try_lock() {
            Ok(()) => Ok(()),
            Err(TryLockError::WouldBlock) => Err(io::Error::from(ErrorKind::WouldBlock)),
            Err(TryLockError::Error(error)) => Err(error),
        }
    }

    /// The file itself.
    pub(crate) fn file(&self) -> &File {
        &self.file
    }

    /// Writes these bytes as the whole file, and syncs the file. Then it syncs the folder, so that the file's name is stored too.
    pub fn write_named<R: Files<File = File>>(
        &self,
        rt: &R,
        path: &str,
        bytes: &[u8],
    ) -> io::Result<()> {
        self.write_whole(bytes)?;
        sync_folder(rt, path)
    }

    /// Writes these bytes as all of it, and has them stored. A file that has lost its last name is gone with them.
    pub(crate) fn write_whole(&self, bytes: &[u8]) -> io::Result<()> {
        self.file.write_all_at(bytes, 0)?;
        self.file.sync_data()?;
        if self.file.metadata()?.nlink() == 0 {
            return Err(io::Error::from(ErrorKind::NotFound));
        }
        Ok(())
    }

    /// Takes it away, where it still has the name under which it was made. std removes by name alone: what comes under the
    /// name after that look goes in its place.
    pub fn take_away<R: Files>(self, rt: &R, path: &str) {
        if self.has_name(rt, path).unwrap_or(false) {
            let _ = fs::remove_file(rt, path);
        }
    }

    /// Whether the name, followed to no link's end, is that of this very file.
    pub(crate) fn has_name<R: Files>(&self, rt: &R, path: &str) -> io::Result<bool> {
        let own = self.file.metadata()?;
        let named = fs::symlink_metadata(rt, path)?;
        Ok(named.dev() == own.dev() && named.ino() == own.ino())
    }
}

fn no_file() -> io::Error {
    io::Error::new(ErrorKind::InvalidInput, "it is no regular file")
}

/// Stores on its disk which files the folder of this one has. Not every file system can do that.
pub(crate) fn sync_folder<R: Files<File = File>>(rt: &R, path: &str) -> io::Result<()> {
    let folder = match path.rsplit_once('/') {
        Some(("", _)) => "/",
        Some((folder, _)) => folder,
        None => ".",
    };
    let folder = File::open(rt, folder)?;
    match folder.sync_all() {
        Err(error) if is_unable(error.kind()) => Ok(()),
        synced => synced,
    }
}

fn is_unable(kind: ErrorKind) -> bool {
    matches!(kind, ErrorKind::InvalidInput | ErrorKind::Unsupported)
}
