// The images that are named of a new array.
ghost use Rattle.std.specs.Prelude.{◌≡◌, IfOk, map};
ghost use Rattle.md_images.specs.Taking.{names_of, word_of};
ghost use Rattle.md_messages.specs.Telling.{texts};

use md_images::ImageWord;
use std::alloc::{AllocError, Global};

/// The names of the images, in the order of their words.
pub(crate) fn shown_names<'a>(
    alloc: Global,
    words: &[ImageWord<'a>],
) -> Result<Vec<&'a str>, AllocError>
    ensures { IfOk result (λ names. texts names.items ≡ names_of (map word_of words.now)) }
{
    let mut names = Vec::new(alloc);
    for word in words {
        names.push(word.name)?;
    }
    Ok(names)
}
