// The words that name maps.
ghost use Rattle.std.specs.Prelude.{◌≡◌, ◌≢◌, ◌==◌, ◌++◌, ◌∷◌, ℕ, List, IfOk, MatchOption, length, map};
ghost use Rattle.std.specs.List.{list_any};
ghost use Rattle.md_files.specs.Masks.Images.Words.{AreMaps, IsMapOf, NamesNone};

use crate::masks::images::fault::{MapRefusal, MapsFault};
use std::alloc::Global;

/// A map that is named: the place of its image among those listed, from 0, and the file that it is in.
#[derive(Clone, Copy)]
pub struct MapWord<'a> {
    pub image: usize,
    pub file: &'a str,
}

// The file that a word names as the map of an image, as `IMAGE=FILE`.
fn file_of<'a>(name: &str, word: &'a str) -> Option<&'a str>
    ensures { MatchOption result
        ((file : List ℕ) → word.entry.now ≢ name.now ++ 61 ∷ file)
        (λ file. word.entry.now ≡ name.now ++ 61 ∷ file.now) }
{
    word.strip_prefix(name)?.strip_prefix("=")
}

// The map that a word names: of the first image with which it begins.
fn map_word<'a>(names: &[&str], word: &'a str) -> Option<MapWord<'a>>
    ensures { MatchOption result
        (NamesNone (map (λ s. s.now) names.now) (length names.now) word.entry.now)
        (λ found. IsMapOf (map (λ s. s.now) names.now) word.entry.now found) }
{
    for image in 0..names.len() {
        if let Some(file) = file_of(names[image], word) {
            return Some(MapWord { image, file });
        }
    }
    None
}

/// The maps that words name, as `IMAGE=FILE` each, of the images that are listed: of each image one at most. `NotListed` and
/// `Repeated` come of the first word of which they are so.
pub fn map_list<'a>(
    alloc: Global,
    names: &[&str],
    words: &[&'a str],
) -> Result<Vec<MapWord<'a>>, MapsFault>
    ensures { IfOk result (λ list. AreMaps (map (λ s. s.now) names.now) (map (λ s. s.now) words.now) (length words.now) list.items) }
{
    let mut list: Vec<MapWord> = Vec::new(alloc);
    for place in 0..words.len() {
        let Some(found) = map_word(names, words[place]) else {
            return Err(MapsFault::BadMap(place, MapRefusal::NotListed));
        };
        if is_among(&list, found.image) {
            return Err(MapsFault::BadMap(place, MapRefusal::Repeated));
        }
        if list.push(found).is_err() {
            return Err(MapsFault::NoMemory);
        }
    }
    Ok(list)
}

// Whether one of the maps is of this image.
fn is_among(list: &[MapWord<'_>], image: usize) -> bool
    ensures { result ≡ list_any (λ other. other.image == image) list.now }
{
    list.iter().any(|other| other.image == image)
}
