// What the system tells of standard input.
use md_words::Request;
use std::{fs, str};

/// How many bytes standard input has still to give, where the words that were parsed ask for a command that takes it, and the
/// system tells.
pub fn bytes_left_if_taken<E>(rt: &HostRuntime, parsed: &Result<Request<'_>, E>) -> Option<u64> {
    match parsed {
        Ok(request) if request.command.takes_input() => bytes_left(rt),
        Ok(_) | Err(_) => None,
    }
}

// Of a regular file, what lies after the place from which it is read next. One below /proc says that it is empty, and gives bytes
// all the same.
fn bytes_left(rt: &HostRuntime) -> Option<u64> {
    let file = fs::metadata(rt, "/proc/self/fd/0").ok()?;
    if !file.is_file() || file.len() == 0 {
        return None;
    }
    let told = fs::read(rt, "/proc/self/fdinfo/0").ok()?;
    let place = place_in(str::from_utf8(&told).ok()?)?;
    Some(file.len().saturating_sub(place))
}

// The place in an open file, of what the system tells of it, in a first line such as `pos: 512`.
fn place_in(told: &str) -> Option<u64> {
    let (place, _) = told.strip_prefix("pos:")?.split_once('\n')?;
    place.trim().parse().ok()
}
