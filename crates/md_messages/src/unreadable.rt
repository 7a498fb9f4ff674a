// That what is written to sectors which no member in sync gives can't be read. No line takes memory.
ghost use Rattle.std.specs.Prelude.{◌≡◌, ◌++◌};
ghost use Rattle.md_streams.specs.Sink.{PutsOrFails};
ghost use Rattle.md_notices.specs.Lines.{ungiven_text};
ghost use Rattle.md_words.specs.Asks.{ask_of};
ghost use Rattle.md_messages.specs.Unreadable.{unreadable_if_some, unreadable_lines};

use crate::notices::Notices;
use md_notices::{Lost, ungiven_line};
use md_streams::{Sink, SinkFault};
use md_words::{ArrayCommand, Command};

// That it can't be read, where there are such sectors.
fn put_unreadable_if<S: Sink>(out: &mut S, lost: Lost) -> Result<(), SinkFault>
    ensures { PutsOrFails S.contents S.failed out.old out.new (unreadable_if_some lost.first) result }
{
    match lost.first {
        Some(_) => {
            out.put(
                b"mdcli: what is written to these can't be read; `read --fill` and `create` make an array of the others\n",
            )
        }
        None => out.put(b""),
    }
}

// Which sectors no member in sync gives, and that what is written to them can't be read.
fn put_unreadable_of<S: Sink>(out: &mut S, lost: Lost) -> Result<(), SinkFault>
    ensures { PutsOrFails S.contents S.failed out.old out.new
        (ungiven_text lost ++ unreadable_if_some lost.first) result }
{
    ungiven_line(out, lost)?;
    put_unreadable_if(out, lost)?;
    Ok(())
}

/// Of a command that writes data, which sectors no member in sync gives: what it wrote to these can't be read.
pub(crate) fn put_unreadable<S: Sink>(
    out: &mut S,
    command: Command<'_>,
    notices: &Notices,
) -> Result<(), SinkFault>
    ensures { PutsOrFails S.contents S.failed out.old out.new
        (unreadable_lines (ask_of command.entry) notices.now) result }
{
    match command {
        Command::Array(ArrayCommand::Write { .. } | ArrayCommand::ServeWritable) => {
            put_unreadable_of(out, notices.lost)
        }
        _ => out.put(b""),
    }
}
