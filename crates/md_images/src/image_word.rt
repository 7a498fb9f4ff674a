// The words that name images.
ghost use Rattle.std.specs.Prelude.{◌≡◌, IfOk, map, true};
ghost use Rattle.md_images.specs.Taking.{image_list, is_missing_word, may_miss, word_of};

use std::alloc::{AllocError, Global};

/// A word that names an image, and its place among the image words, from 0.
#[derive(Clone, Copy)]
pub struct ImageWord<'a> {
    pub index: usize,
    pub name: &'a str,
}

/// What the word `missing` says among words that name images.
#[derive(Clone, Copy)]
pub enum MissingWord {
    /// It names an image as any other word does.
    NamesAnImage,
    /// It stands for a member that has no image, as in `create`.
    StandsForAMember,
}

/// Whether a word stands for a missing member where such a word may.
pub fn is_missing(name: &str) -> bool
    ensures { result ≡ is_missing_word true name.now }
{
    name == "missing"
}

// Whether a word names no image.
fn names_none(missing: MissingWord, name: &str) -> bool
    ensures { result ≡ is_missing_word (may_miss missing) name.now }
{
    match missing {
        MissingWord::NamesAnImage => false,
        MissingWord::StandsForAMember => is_missing(name),
    }
}

/// The words that name images, in their order.
#[tactic(auto, unfolding(crate::specs::Taking::image_list))]
pub fn image_list<'a>(
    alloc: Global,
    words: &[&'a str],
    missing: MissingWord,
) -> Result<Vec<ImageWord<'a>>, AllocError>
    ensures { IfOk result (λ list. map word_of list.items ≡ image_list (may_miss missing) (map (λ s. s.now) words.now)) }
{
    let mut list = Vec::new(alloc);
    for index in 0..words.len() {
        let name = words[index];
        if names_none(missing, name) {
            continue;
        }
        list.push(ImageWord { index, name })?;
    }
    Ok(list)
}
