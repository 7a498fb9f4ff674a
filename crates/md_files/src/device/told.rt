// What the system tells in its files.
use std::fs::Files;
use std::io::ErrorKind;
use std::{fs, io, str};

/// The bytes of a file, none where it can't be read.
pub(crate) fn read<R: Files + AllocGlobal>(rt: &R, path: &str) -> io::Result<Vec<u8>> {
    Ok(answer_if_told(fs::read(rt, path))?.unwrap_or(Vec::new(rt.alloc())))
}

/// The number that a file has, none where it can't be read or has none.
pub(crate) fn number<R: Files + AllocGlobal>(rt: &R, path: &str) -> io::Result<Option<u64>> {
    let text = read(rt, path)?;
    Ok(
        str::from_utf8(text.as_slice())
            .ok()
            .and_then(|number| number.trim_end().parse().ok()),
    )
}

/// What the system doesn't tell is passed over. Out of memory, nothing is known.
pub(crate) fn answer_if_told<T>(answer: io::Result<T>) -> io::Result<Option<T>> {
    match answer {
        Ok(told) => Ok(Some(told)),
        Err(error) if error.kind() == ErrorKind::OutOfMemory => Err(error),
        Err(_) => Ok(None),
    }
}
