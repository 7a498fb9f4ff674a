// The UUID of an array that `create` makes.
ghost use Rattle.std.specs.Prelude.{◌≡◌, length, option_map};
ghost use Rattle.uuid.specs.Text.{parsed};
ghost use Rattle.md_cli.specs.SetUuid.{has_colons, random_uuid, set_uuid_of, uuid_of_text, without_colons};

use uuid::{Builder, Uuid};

// Whether a text stands as mdadm writes a UUID, with three colons.
fn has_colons(text: &[u8]) -> bool
    ensures { result ≡ has_colons text.now }
{
    text.len() == 35 && text[8] == b':' && text[17] == b':' && text[26] == b':'
}

fn without_colons(text: &[u8]) -> [u8; 32]
    requires { length text.now ≡ 35 }
    ensures { result ≡ without_colons text.now }
{
    let mut digits = [0; 32];
    for place in 0..32 {
        digits[place] = text[place + place / 8];
    }
    digits
}

fn parsed_uuid(text: &[u8]) -> Option<Uuid>
    ensures { result ≡ parsed text.now }
{
    Uuid::try_parse_ascii(text).ok()
}

fn uuid_of_text(text: &str) -> Option<Uuid>
    ensures { result ≡ uuid_of_text text.now }
{
    let text = text.as_bytes();
    if has_colons(text) {
        return parsed_uuid(&without_colons(text));
    }
    parsed_uuid(text)
}

fn random_uuid(bytes: [u8; 16]) -> Uuid
    ensures { result ≡ random_uuid bytes }
{
    Builder::from_random_bytes(bytes).into_uuid()
}

/// The UUID that a text says or, where there is none, one of version 4 that is made of random bytes.
pub(crate) fn set_uuid_of(text: Option<&str>, random: Option<[u8; 16]>) -> Option<Uuid>
    ensures { result ≡ set_uuid_of (option_map (λ s. s.now) text.entry) random }
{
    match text {
        Some(text) => uuid_of_text(text),
        None => Some(random_uuid(random?)),
    }
}
