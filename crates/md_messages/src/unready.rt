// The line that says that a kernel may not be given the array yet. It takes no memory.
ghost use Rattle.md_streams.specs.Sink.{PutsOrFails};
ghost use Rattle.md_words.specs.Asks.{ask_of};
ghost use Rattle.md_messages.specs.Unready.{unready_lines};

use crate::notices::Notices;
use md_notices::unready_line;
use md_streams::{Sink, SinkFault};
use md_words::{ArrayCommand, Command};

/// Of a command that shows an array or stops it, why a kernel may not be given it yet.
pub(crate) fn put_unready<S: Sink>(
    out: &mut S,
    command: Command<'_>,
    notices: &Notices,
) -> Result<(), SinkFault>
    ensures { PutsOrFails S.contents S.failed out.old out.new
        (unready_lines (ask_of command.entry) notices.now) result }
{
    match command {
        Command::Array(
            ArrayCommand::Assemble { .. } | ArrayCommand::Detail { .. } | ArrayCommand::Stop { .. },
        ) => unready_line(out, notices.unready),
        _ => out.put(b""),
    }
}
