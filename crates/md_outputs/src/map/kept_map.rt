// The map of a read as it is kept while the read goes on.
use crate::made::{MadeFile, sync_folder};
use std::fs::{self, File, Files};
use std::io::{self, ErrorKind};

/// A map under its name, which is replaced at once: whoever looks there finds one whole map, and after a crash too. Its file is locked,
/// so that no other program that locks files of this kind keeps a map there meanwhile.
#[derive(Drop)]
pub(crate) struct KeptMap<'a, R> {
    rt: &'a R,
    path: String,
    file: MadeFile,
}

impl<'a, R: Files<File = File> + AllocGlobal> KeptMap<'a, R> {
    /// The map in a file that is locked, which has this name.
    pub(crate) fn new(rt: &'a R, path: String, file: MadeFile) -> KeptMap<'a, R> {
        KeptMap { rt, path, file }
    }

    /// Writes the first text where the file is empty or has a part of that text.
    pub(crate) fn begin(&self, text: &str) -> io::Result<()> {
        self.file.write_named(self.rt, &self.path, text.as_bytes())
    }

    /// Puts this text in the place of the one that is there, once it is on its disk. That its name is stored is `store_name`'s.
    pub(crate) fn replace(&mut self, text: &str) -> io::Result<()> {
        let (name, file) = new_beside(self.rt, &self.path)?;
        if let Err(error) = self.put_in_place(text, &name, &file) {
            file.take_away(self.rt, &name);
            return Err(error);
        }
        self.file = file;
        Ok(())
    }

    /// Has it stored that the text which was put there last has the name.
    pub(crate) fn store_name(&self) -> io::Result<()> {
        sync_folder(self.rt, &self.path)
    }

    // What came under the map's name by another's hand, an image perhaps, stays.
    fn put_in_place(&self, text: &str, name: &str, file: &MadeFile) -> io::Result<()> {
        file.lock()?;
        file.write_whole(text.as_bytes())?;
        if !self.file.has_name(self.rt, &self.path)? {
            return Err(io::Error::new(ErrorKind::Other, "another file took its place"));
        }
        fs::rename(self.rt, name, &self.path)
    }

    /// Takes it away.
    pub(crate) fn take_away(self) {
        let KeptMap { rt, path, file } = self;
        file.take_away(rt, &path);
    }
}

// A new file beside this one, and its name: the first that nothing has.
fn new_beside<R: Files<File = File> + AllocGlobal>(
    rt: &R,
    path: &str,
) -> io::Result<(String, MadeFile)> {
    for number in 1..u64::MAX {
        let name = format!(in rt.alloc(); "{path}.{number}.new")?;
        match MadeFile::make(rt, &name) {
            Err(error) if error.kind() == ErrorKind::AlreadyExists => {}
            made => return Ok((name, made?)),
        }
    }
    Err(io::Error::from(ErrorKind::AlreadyExists))
}
