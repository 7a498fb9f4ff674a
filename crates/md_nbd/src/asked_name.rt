// The name of an export, as INFO and GO ask for it.
ghost use Rattle.std.specs.Prelude.{◌≡◌, option_map};
ghost use Rattle.md_nbd.specs.Options.{asked_name_of};

use crate::number_fields::{u16_of, u32_of};

/// The name in the body of INFO or GO; none where that is no name and list of kinds.
pub(crate) fn asked_name_of(body: &[u8]) -> Option<&[u8]>
    ensures { option_map (λ name. name.now) result ≡ asked_name_of body.now }
{
    if body.len() < 6 {
        return None;
    }
    let (length, rest) = u32_of(body);
    let length = length as usize;
    if body.len() < length + 6 {
        return None;
    }
    let (name, rest) = rest.split_at(length);
    let (kinds, _) = u16_of(rest);
    if body.len() != length + 6 + 2 * kinds as usize {
        return None;
    }
    Some(name)
}
