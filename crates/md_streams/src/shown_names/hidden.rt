// Characters that are not shown as they are.
ghost use Rattle.std.specs.Prelude.{◌≡◌, chars};
ghost use Rattle.std.specs.List.{list_any};
ghost use Rattle.md_streams.specs.ShownNames.Shown.{is_hidden};

/// Whether a character is a control character, ends a line, or changes the direction in which text is shown.
pub fn is_hidden(c: char) -> bool
    ensures { result ≡ is_hidden c }
{
    let code = c as u32;
    code < 0x20
        || 0x7f <= code && code <= 0x9f
        || code == 0x61c
        || code == 0x200e
        || code == 0x200f
        || 0x2028 <= code && code <= 0x202e
        || 0x2066 <= code && code <= 0x2069
}

/// Whether there is such a character in a text.
pub fn hides(text: &str) -> bool
    ensures { result ≡ list_any is_hidden (chars text.now) }
{
    text.chars().any(|c| is_hidden(c))
}
