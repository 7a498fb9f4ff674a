// Which copy a map says itself that it is of.
ghost use Rattle.std.specs.Prelude.{◌≡◌, ◌==◌, ◌<◌, ◌&&◌, drop, position, reverse, length, IfErr, OnOk};
ghost use Rattle.std.specs.Option.{option_copied};
ghost use Rattle.std.specs.List.{starts_with};
ghost use Rattle.md_files.specs.Masks.Images.OwnLines.{AreOwn, RefusesOwnLines, file_name, is_device, is_end, is_slash, is_start, names_image, other_of, stands_at, stands_on, strange_command, surely_names};

use crate::masks::images::copies::MapText;
use crate::masks::images::fault::{MapRefusal, MapsFault};
use crate::masks::maps::command_of;

/// Refuses the first map that is another image's by its own line: the map is not believed.
pub(crate) fn check_own_lines(names: &[&str], maps: &[MapText]) -> Result<(), MapsFault>
    ensures ok { OnOk result (AreOwn names.now maps.now (length maps.now)) }
    ensures err { IfErr result (RefusesOwnLines names.now maps.now) }
{
    for place in 0..maps.len() {
        if let Some(other) = other_of(names, &maps[place]) {
            return Err(MapsFault::BadMap(place, MapRefusal::OfImage(other)));
        }
    }
    Ok(())
}

/// The command that made a map, where it does not name the image for which the map is given. A map that tells of no command, as
/// one that another program made, has none. So has one whose image is not listed.
pub fn strange_command<'a>(names: &[&str], map: &'a MapText) -> Option<&'a [u8]>
    ensures { option_copied result ≡ strange_command names.now map.entry.now }
{
    let command = command_of(map.text.as_slice())?;
    let own = names.get(map.image)?;
    if names_image(command, own) {
        return None;
    }
    Some(command)
}

// The image that a map is of by its own line, where that is another than the one for which it is given.
fn other_of(names: &[&str], map: &MapText) -> Option<usize>
    ensures { result ≡ other_of names.now map.now }
{
    let command = command_of(map.text.as_slice())?;
    let own = names.get(map.image)?;
    if names_image(command, own) {
        return None;
    }
    first_named(names, command)
}

// The first image that a command names for sure.
fn first_named(names: &[&str], command: &[u8]) -> Option<usize>
    ensures { result ≡ position (λ name. surely_names command.now name.now) names.now }
{
    names.iter().position(|name| surely_names(command, name))
}

fn surely_names(command: &[u8], path: &str) -> bool
    ensures { result ≡ surely_names command.now path.now }
{
    !is_device(path) && names_image(command, path)
}

fn is_device(path: &str) -> bool
    ensures { result ≡ is_device path.now }
{
    path.as_bytes().starts_with("/dev/".as_bytes())
}

fn names_image(command: &[u8], path: &str) -> bool
    ensures { result ≡ names_image command.now path.now }
{
    stands_on(command, file_name(path.as_bytes()))
}

// The last component of a path.
fn file_name(path: &[u8]) -> &[u8]
    ensures { result.now ≡ file_name path.now }
{
    let len = bytes_after_slash(path).unwrap_or(path.len());
    &path[path.len().saturating_sub(len)..]
}

fn bytes_after_slash(path: &[u8]) -> Option<usize>
    ensures { result ≡ position is_slash (reverse path.now) }
{
    path.iter().rev().position(|b| *b == b'/')
}

// Whether a name stands on a line by whole words, or as the last component of a path.
fn stands_on(line: &[u8], name: &[u8]) -> bool
    ensures { result ≡ stands_on line.now name.now }
{
    (0..line.len()).any(|at| stands_at(line, name, at))
}

fn stands_at(line: &[u8], name: &[u8], at: usize) -> bool
    ensures { result ≡ stands_at line.now name.now at }
{
    at < line.len() && is_start(line, at) && is_word(&line[at..], name)
}

fn is_start(line: &[u8], at: usize) -> bool
    requires { at < length line.now }
    ensures { result ≡ is_start line.now at }
{
    at == 0 || line[at - 1] == b' ' || line[at - 1] == b'/'
}

// Whether it begins with a name that may end there.
fn is_word(rest: &[u8], name: &[u8]) -> bool
    ensures { result ≡ (starts_with (λ a b. a == b) rest.now name.now && is_end (drop (length name.now) rest.now)) }
{
    rest.starts_with(name) && is_end(&rest[name.len()..])
}

fn is_end(rest: &[u8]) -> bool
    ensures { result ≡ is_end rest.now }
{
    rest.is_empty() || rest[0] == b' '
}
