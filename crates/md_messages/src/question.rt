// The question before a command is done.
ghost use Rattle.std.specs.Prelude.{◌≡◌, IfOk};
ghost use Rattle.md_words.specs.Asks.{ask_of};
ghost use Rattle.md_messages.specs.Question.{question};
ghost use Rattle.md_messages.specs.Telling.{asked_text, texts};

use crate::notices::Notices;
use crate::telling::put_asked;
use md_refusals::CommandFault;
use md_streams::{Asker, Output, SinkFault};
use md_words::Command;
use std::alloc::Global;

/// Asks whether a command goes on, where it would overwrite what perhaps should stay, or list whole chunks as bad, by what
/// was noticed: once, and the answer stands. The names are those of all images. Without memory for the lines that are asked with it does not go on.
pub fn ask_first<A: Asker>(
    alloc: Global,
    asker: &mut A,
    command: Command<'_>,
    notices: &Notices,
    names: &[&str],
) -> Result<(), CommandFault>
    ensures { question A.Asker (ask_of command.entry) (texts names.now) notices.now asker.old asker.new
        result }
{
    if !notices.asks_first(command) || !asker.is_there() {
        return Ok(());
    }
    let Ok(lines) = lines_first(alloc, command, notices, names) else {
        return Err(CommandFault::NoMemory);
    };
    if asker.goes_on(&lines) {
        Ok(())
    } else {
        Err(CommandFault::Declined)
    }
}

// The lines that are said before.
fn lines_first(
    alloc: Global,
    command: Command<'_>,
    notices: &Notices,
    names: &[&str],
) -> Result<Vec<u8>, SinkFault>
    ensures { IfOk result (λ lines.
        lines.items ≡ asked_text (ask_of command.entry) (texts names.now) notices.now) }
{
    let mut out = Output::new(Vec::new(alloc));
    put_asked(notices, command, names, &mut out)?;
    Ok(out.into_inner())
}
