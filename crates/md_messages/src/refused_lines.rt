// Lines on members where a command is refused. No line takes memory.
ghost use Rattle.std.specs.Prelude.{◌≡◌, ◌<◌};
ghost use Rattle.md_streams.specs.Sink.{PutsOrFails};
ghost use Rattle.md_words.specs.Asks.{ask_of};
ghost use Rattle.md_messages.specs.RefusedLines.{failed_text, good_ones, perhaps_listed_text};
ghost use Rattle.md_messages.specs.Telling.{failed_at, failed_lines, perhaps_listed_at, perhaps_listed_line, perhaps_listed_lines, texts};

use crate::notices::Notices;
use crate::telling::{loses_chunks, member_name, name_at};
use md_notices::MAX_MEMBERS;
use md_streams::{Sink, SinkFault, number_after, put_name};
use md_words::Command;

// Says that a write to a member failed, and what to do where the others do not say so. It fails only where the sink has failed, as all
// here does.
fn failed_line<S: Sink>(out: &mut S, name: &str) -> Result<(), SinkFault>
    ensures { PutsOrFails S.contents S.failed out.old out.new (failed_text name.now) result }
{
    out.put(b"mdcli: ")?;
    put_name(out, name)?;
    out.put(b": a write failed; where `detail` does not call it faulty, run `fail` on it\n")?;
    Ok(())
}

fn put_failed<S: Sink>(
    out: &mut S,
    notices: &Notices,
    names: &[&str],
    k: usize,
) -> Result<(), SinkFault>
    requires { k < 64 }
    ensures { PutsOrFails S.contents S.failed out.old out.new
        (failed_at notices.now (texts names.now) k) result }
{
    if !notices.dropped[k] {
        return out.put(b"");
    }
    match name_at(names, k) {
        Some(name) => failed_line(out, name),
        None => out.put(b""),
    }
}

/// Of which members a write failed.
pub(crate) fn put_all_failed<S: Sink>(
    out: &mut S,
    notices: &Notices,
    names: &[&str],
) -> Result<(), SinkFault>
    ensures { PutsOrFails S.contents S.failed out.old out.new
        (failed_lines (texts names.now) notices.now) result }
{
    for k in 0..MAX_MEMBERS {
        put_failed(out, notices, names, k)?;
    }
    Ok(())
}

// That good sectors are among those that are listed, where whole chunks are.
fn good_ones(by_chunks: bool) -> &'static [u8]
    ensures { result.now ≡ good_ones by_chunks }
{
    if by_chunks {
        b", also good ones of the same chunks"
    } else {
        b""
    }
}

// Says up to how many sectors a member lists as bad now, which lists more in memory than before.
fn perhaps_listed_line<S: Sink>(
    out: &mut S,
    name: &str,
    by_chunks: bool,
    count: u64,
) -> Result<(), SinkFault>
    ensures { PutsOrFails S.contents S.failed out.old out.new
        (perhaps_listed_text name.now by_chunks count) result }
{
    out.put(b"mdcli: ")?;
    put_name(out, name)?;
    number_after(
        out,
        b": perhaps more sectors are listed as bad in it now, up to ",
        count,
    )?;
    out.put(good_ones(by_chunks))?;
    out.put(b": `examine-badblocks` shows which\n")?;
    Ok(())
}

fn put_perhaps_listed_of<S: Sink>(
    out: &mut S,
    name: &str,
    by_chunks: bool,
    count: Option<u64>,
) -> Result<(), SinkFault>
    ensures { PutsOrFails S.contents S.failed out.old out.new
        (perhaps_listed_line by_chunks count name.now) result }
{
    match count {
        Some(count) => perhaps_listed_line(out, name, by_chunks, count),
        None => out.put(b""),
    }
}

fn put_perhaps_listed_at<S: Sink>(
    out: &mut S,
    notices: &Notices,
    command: Command<'_>,
    names: &[&str],
    k: usize,
) -> Result<(), SinkFault>
    requires { k < 64 }
    ensures { PutsOrFails S.contents S.failed out.old out.new
        (perhaps_listed_at (ask_of command.entry) notices.now (texts names.now) k) result }
{
    match member_name(command, names, k) {
        Some(name) => {
            let by_chunks = loses_chunks(command);
            put_perhaps_listed_of(out, name, by_chunks, notices.more_listed[k])
        }
        None => out.put(b""),
    }
}

/// Which members list more sectors as bad in memory than before. How much of that is in their logs is not known where a command is
/// refused: a rebuild lists whole chunks in memory, and its lists are stored once a pass is over.
pub fn put_perhaps_listed<S: Sink>(
    out: &mut S,
    notices: &Notices,
    command: Command<'_>,
    names: &[&str],
) -> Result<(), SinkFault>
    ensures { PutsOrFails S.contents S.failed out.old out.new
        (perhaps_listed_lines (ask_of command.entry) (texts names.now) notices.now) result }
{
    for k in 0..MAX_MEMBERS {
        put_perhaps_listed_at(out, notices, command, names, k)?;
    }
    Ok(())
}
