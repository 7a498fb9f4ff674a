// The block devices that the system tells of, where `scan` is given none.
use md_words::Request;
use std::alloc::{AllocError, Global};
use std::fs::File;
use std::io::{self, Read};
use std::rt::Files;
use std::str;
use std::string::String;

/// Where the system lists them.
pub const DEVICE_LIST: &str = "/proc/partitions";

// No list has so many bytes: a line has some 40.
const LIMIT: u64 = 16 << 20;

/// How the report of `scan` is shown, where no image is named.
pub fn scan_of_all<E>(parsed: &Result<Request<'_>, E>) -> Option<bool> {
    let Ok(request) = parsed else {
        return None;
    };
    if !request.images.is_empty() {
        return None;
    }
    request.command.scan_form()
}

/// The paths of the devices that have a size, in the order of the system's list.
pub fn device_paths(rt: &HostRuntime) -> io::Result<Vec<String>> {
    let mut text = Vec::new(rt.alloc());
    File::open(rt, DEVICE_LIST)?
        .take(LIMIT)
        .read_to_end(&mut text)?;
    let mut paths = Vec::new(rt.alloc());
    let Ok(text) = str::from_utf8(text.as_slice()) else {
        return Ok(paths);
    };
    for line in text.lines() {
        if let Some(name) = name_in(line) {
            paths.push(path_of(rt.alloc(), name)?)?;
        }
    }
    Ok(paths)
}

// The name in a line, which has two numbers of a device, its number of KiB and its name; not that of a device without a size, nor
// the head of the list.
fn name_in(line: &str) -> Option<&str> {
    let mut words = line.split_ascii_whitespace();
    let _major: u32 = words.next()?.parse().ok()?;
    let _minor: u32 = words.next()?.parse().ok()?;
    let size: u64 = words.next()?.parse().ok()?;
    let name = words.next()?;
    if size == 0 {
        return None;
    }
    Some(name)
}

// The kernel writes a slash in a name as an exclamation mark.
fn path_of(alloc: Global, name: &str) -> Result<String, AllocError> {
    let mut path = String::from_str(alloc, "/dev/")?;
    for character in name.chars() {
        path.push(if character == '!' { '/' } else { character })?;
    }
    Ok(path)
}
