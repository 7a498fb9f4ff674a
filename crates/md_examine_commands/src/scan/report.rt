// The report on all arrays.
ghost use Rattle.std.specs.Prelude.{◌≡◌, ◌<◌, length};
ghost use Rattle.md_streams.specs.Sink.{PutsOrFails};
ghost use Rattle.md_examine_commands.specs.ScanText.{array_at, array_text, is_told_before, scan_text};

use crate::scan::array_entry::{put_array_line, put_devices_line, put_spares};
use crate::scan::member_comments::put_comments;
use crate::scan::seen::{Seen, decider, is_same_array};
use md_streams::{Sink, SinkFault};

/// Writes of which arrays images are members, by their superblocks: an entry for each, in the order of its first image. It
/// takes no memory, and fails only where the sink has failed.
pub fn scan_report<S: Sink>(out: &mut S, all: &[Seen<'_>]) -> Result<(), SinkFault>
    ensures { PutsOrFails S.contents S.failed out.old out.new (scan_text all.now) result }
{
    for place in 0..all.len() {
        put_array_at(out, all, place)?;
    }
    Ok(())
}

fn put_array_at<S: Sink>(out: &mut S, all: &[Seen<'_>], place: usize) -> Result<(), SinkFault>
    requires { place < length all.now }
    ensures { PutsOrFails S.contents S.failed out.old out.new (array_at all.now place) result }
{
    let first = &all[place];
    if is_told_before(first, &all[..place]) {
        return out.put(b"");
    }
    put_array(out, first, &all[place + 1..], all)
}

/// Whether its array is that of one before it.
pub(crate) fn is_told_before(seen: &Seen<'_>, before: &[Seen<'_>]) -> bool
    ensures { result ≡ is_told_before seen.now before.now }
{
    before
        .iter()
        .any(|earlier| is_same_array(&seen.superblock, earlier))
}

fn put_array<S: Sink>(
    out: &mut S,
    first: &Seen<'_>,
    rest: &[Seen<'_>],
    all: &[Seen<'_>],
) -> Result<(), SinkFault>
    ensures { PutsOrFails S.contents S.failed out.old out.new (array_text first.now rest.now all.now) result }
{
    let v = decider(&first.superblock, rest, all);
    put_array_line(out, v)?;
    put_spares(out, v, all)?;
    put_devices_line(out, first, rest)?;
    put_comments(out, v, all)?;
    Ok(())
}
