// Which file it is, and the end of what stands in it.
use crate::map::identity::push_sum;
use sha2::{Digest, Sha256};
use std::alloc::{AllocError, Global};
use std::fs::{File, Metadata};
use std::io;
use std::os::unix::fs::{FileExt, MetadataExt};
use std::time::UNIX_EPOCH;

// So much of it is summed.
const MOST: u64 = 1 << 20;

/// What the line begins with that says which file it is.
pub(crate) const FILE: &str = "# File: ";

/// What the line begins with that has the sum.
pub(crate) const END: &str = "# Sum of the last of them: ";

/// A line with the file's device and inode, and the second in which it was made: 0 where its file system doesn't tell. An inode that is
/// free gets another file, which was made later.
pub(crate) fn file_line(alloc: Global, file: &File) -> io::Result<String> {
    let metadata = file.metadata()?;
    let (device, inode, made) = (metadata.dev(), metadata.ino(), made_at(&metadata));
    let line = format!(in alloc; "{FILE}device {device}, inode {inode}, made {made}\n")?;
    Ok(line)
}

fn made_at(metadata: &Metadata) -> u64 {
    let Ok(made) = metadata.created() else {
        return 0;
    };
    match made.duration_since(UNIX_EPOCH) {
        Ok(since) => since.as_secs(),
        Err(_) => 0,
    }
}

/// A line with a sum (SHA-256) over the last bytes of a file before this place: another file, or one that something else changed, has
/// another, unless both have the same there, as zeros.
pub(crate) fn end_line(alloc: Global, file: &File, end: u64) -> io::Result<String> {
    let size = end.min(MOST);
    let mut bytes = vec![in alloc; 0; size as usize]?;
    file.read_exact_at(&mut bytes, end - size)?;
    let line = line_of(alloc, &bytes)?;
    Ok(line)
}

fn line_of(alloc: Global, bytes: &[u8]) -> Result<String, AllocError> {
    let mut sum = Sha256::new();
    sum.update(bytes);
    let mut line = String::new(alloc);
    line.push_str(END)?;
    push_sum(&mut line, sum)?;
    line.push_str("\n")?;
    Ok(line)
}
