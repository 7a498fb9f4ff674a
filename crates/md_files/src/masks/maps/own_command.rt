// The command that made a map.
ghost use Rattle.std.specs.Prelude.{◌≡◌, Some};
ghost use Rattle.std.specs.Option.{option_copied};
ghost use Rattle.md_files.specs.Masks.Maps.OwnCommand.{command_in, command_of, is_by_ddrescue};

use crate::masks::maps::fields::space_at;
use crate::masks::maps::map::line_len;

/// What stands before the command in the second line.
const MARK: &str = "# Command line: ";

/// The command by which ddrescue says in the map's second line that it made it: its words, with a space between two. Words with
/// spaces in them stand there as they are.
pub fn command_of(text: &[u8]) -> Option<&[u8]>
    ensures { option_copied result ≡ command_of text.now }
{
    let Some(first) = line_len(text) else {
        return None;
    };
    let rest = &text[first + 1..];
    let second = line_len(rest).unwrap_or(rest.len());
    command_in(&rest[..second])
}

// The command that a line says, where it says one.
fn command_in(line: &[u8]) -> Option<&[u8]>
    ensures { option_copied result ≡ command_in (Some line.now) }
{
    if !line.starts_with(MARK.as_bytes()) {
        return None;
    }
    let command = &line[MARK.len()..];
    if is_by_ddrescue(command) {
        Some(command)
    } else {
        None
    }
}

fn is_by_ddrescue(command: &[u8]) -> bool
    ensures { result ≡ is_by_ddrescue command.now }
{
    let end = space_at(command).unwrap_or(command.len());
    command[..end].ends_with("ddrescue".as_bytes())
}
