// The image that counts as a device of the array whose superblock can't be read.
ghost use Rattle.std.specs.Prelude.{◌≡◌, map, option_map, position};
ghost use Rattle.std.specs.Path.{rsplit_once};
ghost use Rattle.std.specs.Str.{bytes_eq};
ghost use Rattle.md_words.specs.Asks.{ask_of, compares};
ghost use Rattle.md_cli.specs.CountedImage.{image_and_number, named_in, said_number, stand_in_by};

use md_read_commands::StandIn;
use md_words::{ArrayCommand, Command, Request};

/// The image that counts as a device of the array, as `--data-of` says it. The index is past the images where the value says no
/// image or no number.
pub fn stand_in_of(request: &Request<'_>) -> Option<StandIn>
    ensures { result
        ≡ option_map (stand_in_by (ask_of request.now.command) (map (λ s. s.now) request.now.images.items))
        (option_map (λ s. s.now) request.now.data_of) }
{
    let text = request.data_of?;
    let (index, number) = named_in(request.images.as_slice(), text);
    Some(StandIn {
        index,
        number,
        compared: compares(request.command),
    })
}

// Whether a command compares members.
fn compares(command: Command<'_>) -> bool
    ensures { result ≡ compares (ask_of command.entry) }
{
    match command {
        Command::Array(ArrayCommand::Check { .. }) => true,
        _ => false,
    }
}

// The index of the image and the number that `IMAGE=NUMBER` says, or else an index past the images.
fn named_in(images: &[&str], text: &str) -> (usize, u32)
    ensures { result ≡ named_in (map (λ s. s.now) images.now) text.now }
{
    image_and_number(images, text).unwrap_or((images.len(), 0))
}

// The index of the image and the number, where both are said.
fn image_and_number(images: &[&str], text: &str) -> Option<(usize, u32)>
    ensures { result ≡ image_and_number (map (λ s. s.now) images.now) (rsplit_once 61 text.now) }
{
    match text.rsplit_once('=') {
        Some((name, number)) => position_of(images, name).zip(number_of(number)),
        None => None,
    }
}

// The index of the first image of this name.
fn position_of(images: &[&str], name: &str) -> Option<usize>
    ensures { result ≡ position (λ image. bytes_eq image.now name.now) images.now }
{
    images.iter().position(|image| *image == name)
}

// The number that a text says in decimal.
fn number_of(text: &str) -> Option<u32>
    ensures { result ≡ said_number text.now }
{
    text.parse::<u32>().ok()
}
