// The lines that say what was noticed.
ghost use Rattle.std.specs.Prelude.{◌≡◌};
ghost use Rattle.md_streams.specs.Sink.{PutsOrFails};
ghost use Rattle.md_notices.specs.Lines.{chunks_lost_text, dropped_text, first_ungiven_text, forgotten_text, held_text, listed_text, lost_text, marked_line_text, parted_text, uncompared_text, ungiven_count_text, ungiven_sectors_text, ungiven_text, unnamed_text, unread_text, unseen_text, which_sectors, why_listed};

use crate::lost_sectors::Lost;
use md_assembly::MemberState;
use md_streams::{Sink, SinkFault, number_after, put_name};

/// Says that an image was used without another one. It takes no memory, as no line does, and fails only where the
/// sink has failed.
pub fn parted_line<S: Sink>(out: &mut S, name: &str, other: &str) -> Result<(), SinkFault>
    ensures { PutsOrFails S.contents S.failed out.old out.new (parted_text name.now other.now) result }
{
    out.put(b"mdcli: ")?;
    put_name(out, name)?;
    out.put(b": was used without ")?;
    put_name(out, other)?;
    out.put(b" since they parted: what was written to it alone is not in this array\n")?;
    Ok(())
}

/// Says that a member dropped out, and how many of how many are in sync now.
#[tactic(auto, unfolding(crate::specs::Lines::dropped_text), using(md_streams::proofs::Puts::puts_then))]
pub fn dropped_line<S: Sink>(
    out: &mut S,
    name: &str,
    in_sync: usize,
    raid_disks: u32,
) -> Result<(), SinkFault>
    ensures { PutsOrFails S.contents S.failed out.old out.new (dropped_text name.now in_sync raid_disks)
        result }
{
    out.put(b"mdcli: ")?;
    put_name(out, name)?;
    number_after(
        out,
        b": a write failed; it is faulty now, and the array has ",
        in_sync,
    )?;
    number_after(out, b" of ", raid_disks)?;
    out.put(b"\n")?;
    Ok(())
}

// Why a member lists sectors that it did not list before.
fn why_listed(was: Option<MemberState>) -> &'static [u8]
    ensures { result.now ≡ why_listed was }
{
    match was {
        Some(MemberState::InSync(_)) => b": could not be read in places: ",
        Some(_) => b": no member gave all of it: ",
        None => b": ",
    }
}

// Which of its sectors are counted.
fn which_sectors(by_chunks: bool) -> &'static [u8]
    ensures { result.now ≡ which_sectors by_chunks }
{
    if by_chunks {
        b"the sectors that are listed as bad in it, also good ones of the same chunks, are now "
    } else {
        b"the sectors that are listed as bad in it are now "
    }
}

/// Says that a member lists more sectors as bad than before, and how many it lists now: one that was in sync, as reads of
/// it failed, and one that gets what it lacks, as no member gave it. `was` is its state before, if it was there, and
/// `by_chunks` says whether whole chunks were listed, which have good sectors too.
#[tactic(auto, unfolding(crate::specs::Lines::listed_text), using(md_streams::proofs::Puts::puts_then))]
pub fn listed_line<S: Sink>(
    out: &mut S,
    name: &str,
    was: Option<MemberState>,
    by_chunks: bool,
    count: u64,
) -> Result<(), SinkFault>
    ensures { PutsOrFails S.contents S.failed out.old out.new
        (listed_text name.now was by_chunks count) result }
{
    out.put(b"mdcli: ")?;
    put_name(out, name)?;
    out.put(why_listed(was))?;
    number_after(out, which_sectors(by_chunks), count)?;
    out.put(b"\n")?;
    Ok(())
}

/// Says how many sectors of the array no member in sync gives, and which is the first, where there are some.
pub fn ungiven_line<S: Sink>(out: &mut S, lost: Lost) -> Result<(), SinkFault>
    ensures { PutsOrFails S.contents S.failed out.old out.new (ungiven_text lost) result }
{
    match lost.first {
        Some(first) => ungiven_sectors_line(out, lost.count, first),
        None => out.put(b""),
    }
}

fn ungiven_sectors_line<S: Sink>(out: &mut S, count: u64, first: u64) -> Result<(), SinkFault>
    ensures { PutsOrFails S.contents S.failed out.old out.new (ungiven_sectors_text count first) result }
{
    ungiven_count(out, count)?;
    first_ungiven(out, first)?;
    Ok(())
}

fn ungiven_count<S: Sink>(out: &mut S, count: u64) -> Result<(), SinkFault>
    ensures { PutsOrFails S.contents S.failed out.old out.new (ungiven_count_text count) result }
{
    out.put(b"mdcli: sectors of the array that no member in sync gives")?;
    number_after(out, b": ", count)?;
    Ok(())
}

#[tactic(auto, unfolding(crate::specs::Lines::first_ungiven_text), using(md_streams::proofs::Puts::puts_then))]
fn first_ungiven<S: Sink>(out: &mut S, first: u64) -> Result<(), SinkFault>
    ensures { PutsOrFails S.contents S.failed out.old out.new (first_ungiven_text first) result }
{
    number_after(out, b", the first is ", first)?;
    out.put(b"\n")?;
    Ok(())
}

/// Says what a rebuild would have cost that loses no chunk for its bad sectors.
pub fn chunks_lost_line<S: Sink>(out: &mut S) -> Result<(), SinkFault>
    ensures { PutsOrFails S.contents S.failed out.old out.new chunks_lost_text result }
{
    out.put(
        b"mdcli: `rebuild --salvage` would have listed only the sectors that no member gave, ",
    )?;
    out.put(b"and not their whole chunks, as long as the logs had room\n")?;
    Ok(())
}

/// Says that a device of the array is not among the images.
#[tactic(auto, unfolding(crate::specs::Lines::unnamed_text), using(md_streams::proofs::Puts::puts_then))]
pub fn unnamed_line<S: Sink>(out: &mut S, number: u32, role: u16) -> Result<(), SinkFault>
    ensures { PutsOrFails S.contents S.failed out.old out.new (unnamed_text number role) result }
{
    number_after(out, b"mdcli: device ", number)?;
    number_after(out, b" in role ", role)?;
    out.put(b" is not among the images\n")?;
    Ok(())
}

/// Says that an image which is to be added is in sync in the array that it is added to.
#[tactic(auto, unfolding(crate::specs::Lines::forgotten_text), using(md_streams::proofs::Puts::puts_then))]
pub fn forgotten_line<S: Sink>(out: &mut S, name: &str) -> Result<(), SinkFault>
    ensures { PutsOrFails S.contents S.failed out.old out.new (forgotten_text name.now) result }
{
    out.put(b"mdcli: ")?;
    put_name(out, name)?;
    out.put(b": is in sync in this very array, and is not among the images: ")?;
    out.put(b"its data may be newer than theirs\n")?;
    Ok(())
}

/// Says what an image holds, which is to be overwritten.
#[tactic(auto, unfolding(crate::specs::Lines::held_text), using(md_streams::proofs::Puts::puts_then))]
pub fn held_line<S: Sink>(out: &mut S, name: &str, what: &str) -> Result<(), SinkFault>
    ensures { PutsOrFails S.contents S.failed out.old out.new (held_text name.now what.now) result }
{
    out.put(b"mdcli: ")?;
    put_name(out, name)?;
    out.put(b": holds ")?;
    out.put(what.as_bytes())?;
    out.put(b"\n")?;
    Ok(())
}

/// Says that there was no memory to look at an image which is to be overwritten.
pub fn unseen_line<S: Sink>(out: &mut S, name: &str) -> Result<(), SinkFault>
    ensures { PutsOrFails S.contents S.failed out.old out.new (unseen_text name.now) result }
{
    out.put(b"mdcli: ")?;
    put_name(out, name)?;
    out.put(b": there was no memory to look at it: it may hold data\n")?;
    Ok(())
}

/// Says that a read of an image failed which is to be overwritten.
pub fn unread_line<S: Sink>(out: &mut S, name: &str) -> Result<(), SinkFault>
    ensures { PutsOrFails S.contents S.failed out.old out.new (unread_text name.now) result }
{
    out.put(b"mdcli: ")?;
    put_name(out, name)?;
    out.put(b": a read of it failed: it may hold data\n")?;
    Ok(())
}

/// Says that all chunks are marked in an image now, since its bitmap did not tell of the array.
pub fn marked_line<S: Sink>(out: &mut S, name: &str) -> Result<(), SinkFault>
    ensures { PutsOrFails S.contents S.failed out.old out.new (marked_line_text name.now) result }
{
    out.put(b"mdcli: ")?;
    put_name(out, name)?;
    out.put(b": its bitmap did not tell of the array, so all chunks are marked in it now\n")?;
    Ok(())
}

/// Says that an image is in sync alone, so that a check compared nothing.
#[tactic(auto, unfolding(crate::specs::Lines::uncompared_text), using(md_streams::proofs::Puts::puts_then))]
pub fn uncompared_line<S: Sink>(out: &mut S, name: &str) -> Result<(), SinkFault>
    ensures { PutsOrFails S.contents S.failed out.old out.new (uncompared_text name.now) result }
{
    out.put(b"mdcli: ")?;
    put_name(out, name)?;
    out.put(b": no other member is in sync, so nothing was compared\n")?;
    Ok(())
}

/// Says that what an image held is lost, which was added to the array.
#[tactic(auto, unfolding(crate::specs::Lines::lost_text), using(md_streams::proofs::Puts::puts_then))]
pub fn lost_line<S: Sink>(out: &mut S, name: &str) -> Result<(), SinkFault>
    ensures { PutsOrFails S.contents S.failed out.old out.new (lost_text name.now) result }
{
    out.put(b"mdcli: ")?;
    put_name(out, name)?;
    out.put(b": what it held is lost: it is a spare of the array now\n")?;
    Ok(())
}
