// The map of the member that a command rebuilds.
ghost use Rattle.std.specs.Prelude.{◌≡◌, ◌↔◌, ◌<◌, length, true};
ghost use Rattle.md_messages.specs.Question.{question};
ghost use Rattle.md_messages.specs.Telling.{texts};
ghost use Rattle.md_words.specs.Asks.{array_ask};
ghost use Rattle.md_cli.specs.MapOfTarget.{GoesOnIf, LacksInPart, LacksInTarget, rebuilt_member};

use crate::lists::holes::lacks_some;
use md_array::Mirror;
use md_badblocks::BadSet;
use md_device::Device;
use md_messages::{Notices, ask_first};
use md_refusals::{CommandFault, OptionFault};
use md_streams::Asker;
use md_words::{ArrayCommand, Command};
use std::alloc::Global;

/// Whether a command goes on with an opened array: where it rebuilds a recovering member, of which part counts as copied, its image must
/// lack nothing of the array; and where it would overwrite what perhaps should stay it is asked.
pub(crate) fn goes_on<D: Device + Drop, A: Asker>(
    alloc: Global,
    asker: &mut A,
    lacking: &[BadSet],
    command: ArrayCommand<'_>,
    mirror: &Mirror<D>,
    notices: &Notices,
    names: &[&str],
) -> Result<(), CommandFault>
    ensures { GoesOnIf (question A.Asker (array_ask command.entry) (texts names.now)) notices.now
        lacking.now (array_ask command.entry) mirror.now.array asker.old asker.new result }
{
    if lacks_in_target(command, mirror, lacking) {
        return Err(CommandFault::Options(OptionFault::MapOfTarget));
    }
    ask_first(alloc, asker, Command::Array(command), notices, names)
}

// Whether the command rebuilds a recovering member whose image lacks something.
fn lacks_in_target<D: Device + Drop>(
    command: ArrayCommand<'_>,
    mirror: &Mirror<D>,
    lacking: &[BadSet],
) -> bool
    ensures { (result ≡ true) ↔ LacksInTarget lacking.now (array_ask command.entry) mirror.now.array }
{
    match rebuilt_member(command) {
        Some(k) => lacks_in_part(mirror, lacking, k),
        None => false,
    }
}

// The member that the command rebuilds, of those that are in the array.
fn rebuilt_member(command: ArrayCommand<'_>) -> Option<usize>
    ensures { result ≡ rebuilt_member (array_ask command.entry) }
{
    match command {
        ArrayCommand::Rebuild { member, .. } => Some(member as usize),
        _ => None,
    }
}

// Whether member k is recovering, and its image lacks something.
fn lacks_in_part<D: Device + Drop>(mirror: &Mirror<D>, lacking: &[BadSet], k: usize) -> bool
    ensures { (result ≡ true) ↔ LacksInPart lacking.now mirror.now.array k }
{
    if k >= mirror.members() {
        return false;
    }
    is_lacking_in_part(mirror, lacking, k)
}

fn is_lacking_in_part<D: Device + Drop>(mirror: &Mirror<D>, lacking: &[BadSet], k: usize) -> bool
    requires within { k < length mirror.now.array.members }
    ensures { (result ≡ true) ↔ LacksInPart lacking.now mirror.now.array k }
{
    let Some(missing) = lacking.get(k) else {
        return false;
    };
    mirror.state(k).is_recovering() && lacks_some(mirror, missing, k)
}
