// The words that the program is given.
use std::alloc::AllocError;
use std::env::{self, FillError};
use std::io::ErrorKind;
use std::rt::Env;
use std::str;
use std::string::String;
use thiserror::Error;

/// Why the words are not had.
#[derive(Clone, Copy, Debug, Drop, Error)]
pub enum ArgumentFault {
    #[error("NoMemory")]
    NoMemory,
    /// The word with this number; the program's name has the number 0.
    #[error("argument {0} is not UTF-8 text, and names are taken in UTF-8 alone: rename the file, or make a link to it under another name (ln -s), and name that")]
    NotText(usize),
}

/// The words, first the program's name.
pub fn given_words(rt: &HostRuntime) -> Result<Vec<String>, ArgumentFault> {
    let words = match env::args(rt) {
        Ok(words) => words,
        Err(error) if error.kind() == ErrorKind::OutOfMemory => return Err(ArgumentFault::NoMemory),
        Err(_) => return Err(first_that_is_no_text(rt)),
    };
    match words.collect(rt.alloc()) {
        Ok(words) => Ok(words),
        Err(_) => Err(ArgumentFault::NoMemory),
    }
}

// The number of the first word that is no text, unless there is no memory to find it.
fn first_that_is_no_text(rt: &HostRuntime) -> ArgumentFault {
    for number in 0..usize::MAX {
        match argument(rt, number) {
            Ok(Some(word)) if str::from_utf8(word.as_slice()).is_err() => {
                return ArgumentFault::NotText(number);
            }
            Ok(Some(_)) => {}
            Ok(None) | Err(_) => break,
        }
    }
    ArgumentFault::NoMemory
}

// The bytes of the word with a number, where there is one.
fn argument(rt: &HostRuntime, number: usize) -> Result<Option<Vec<u8>>, AllocError> {
    let mut word = Vec::new(rt.alloc());
    let mut room = 256usize;
    for _ in 0..usize::BITS {
        if word.resize(room, 0u8).is_err() {
            return Err(AllocError);
        }
        match rt.arg(number, word.as_mut_slice()) {
            Ok(count) => {
                word.truncate(count);
                return Ok(Some(word));
            }
            Err(FillError::NotPresent) => return Ok(None),
            Err(FillError::TooLong) => room = room.saturating_mul(2),
        }
    }
    Err(AllocError)
}
