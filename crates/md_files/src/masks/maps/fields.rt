// The fields of a line.
ghost use Rattle.std.specs.Prelude.{◌≡◌, ◌≢◌, ◌==◌, ◌<◌, ◌≤◌, ℕ, not, [], ◌∷◌, length, position, if◌then◌else◌, MatchResult, MatchOption};
ghost use Rattle.std.specs.Option.{option_copied, option_to_list};
ghost use Rattle.md_files.specs.Masks.Maps.Lines.{is_space, fields_of};
ghost use Rattle.md_files.specs.declared.masks.maps.fault.LineFault.TheVariants.{Fields};

use crate::masks::maps::fault::LineFault;

/// The fields of a line.
#[derive(Clone, Copy)]
pub(crate) struct Row<'a> {
    pub(crate) first: &'a [u8],
    pub(crate) second: &'a [u8],
    pub(crate) third: Option<&'a [u8]>,
}

/// The two or three fields of a line that says something. A blank line and one that is a comment have none.
pub(crate) fn row_of(line: &[u8]) -> Result<Option<Row<'_>>, LineFault>
    ensures { MatchResult result
        (λ some. MatchOption some (fields_of line.now ≡ [])
        (λ row. fields_of line.now ≡ row.first.now ∷ row.second.now ∷ option_to_list (option_copied row.third)))
        (λ fault. (fault ≡ Fields) × (fields_of line.now ≢ []) × (length (fields_of line.now) ≢ 2) × (length (fields_of line.now) ≢ 3)) }
{
    let (first, rest) = next_field(line);
    if first.is_empty() {
        return Ok(None);
    }
    let (second, rest) = next_field(rest);
    let (third, rest) = next_field(rest);
    let (fourth, _) = next_field(rest);
    if second.is_empty() || !fourth.is_empty() {
        return Err(LineFault::Fields);
    }
    let third = if third.is_empty() { None } else { Some(third) };
    Ok(Some(Row {
        first,
        second,
        third,
    }))
}

/// The first field, and what follows it. Where there is none both are empty.
fn next_field(line: &[u8]) -> (&[u8], &[u8])
    ensures fields { fields_of line.now ≡ (if length result.0.now == 0 then [] else result.0.now ∷ fields_of result.1.now) }
    ensures end { length result.0.now ≡ 0 → result.1.now ≡ [] }
{
    let Some(start) = word_at(line) else {
        return (&[], &[]);
    };
    let line = &line[start..];
    if line[0] == b'#' {
        return (&[], &[]);
    }
    line.split_at(space_at(line).unwrap_or(line.len()))
}

/// Where the first byte stands that is no white space.
fn word_at(bytes: &[u8]) -> Option<usize>
    ensures { result ≡ position (λ b. not (is_space b)) bytes.now }
{
    bytes.iter().position(|b| !is_space(*b))
}

/// Where the first white space stands.
pub(crate) fn space_at(bytes: &[u8]) -> Option<usize>
    ensures { result ≡ position is_space bytes.now }
{
    bytes.iter().position(|b| is_space(*b))
}

/// Whether a byte is white space, as `isspace` of C has it.
fn is_space(byte: u8) -> bool
    ensures { result ≡ is_space byte }
{
    byte == b' ' || (b'\t' <= byte && byte <= b'\r')
}
