// How far recovering members are rebuilt.
ghost use Rattle.std.specs.Prelude.{◌≡◌, ◌<◌, ◌≤◌, length};
ghost use Rattle.md_model.specs.Sectors.{is_passed};
ghost use Rattle.md_kept_members.specs.View.{MemberView};
ghost use Rattle.md_state.specs.Members.{IsMember};
ghost use Rattle.md_state.specs.View.{geometry_of};
ghost use Rattle.md_streams.specs.Sink.{PutsOrFails};
ghost use Rattle.md_report.specs.Recovery.{is_marked_before, lacked_to, marked_to, offset_said, percent, recovery_if, recovery_line, recovery_lines, recovery_of, share_text, those};
ghost use Rattle.std.specs.List.{flat_map};

use md_array::Mirror;
use md_device::Device;
use md_streams::{Sink, SinkFault, number_after};

/// How far a recovering member is: its index, the sector before which it was rebuilt, how many chunks the array has, how
/// many of them it lacks, and how many before that sector are marked, which it lacks too.
#[derive(Clone, Copy, Drop)]
pub struct Recovery {
    pub member: usize,
    pub offset: u64,
    pub chunks: u32,
    pub missing: u32,
    pub marked: u32,
}

/// A line for each recovering member.
pub(crate) fn recovery_lines<S: Sink, D: Device + Drop>(
    out: &mut S,
    mirror: &Mirror<D>,
) -> Result<(), SinkFault>
    ensures { PutsOrFails S.contents S.failed out.old out.new (recovery_lines mirror.now.array) result }
{
    for k in 0..mirror.members() {
        line_if(out, recovery_at(mirror, k))?;
    }
    Ok(())
}

fn line_if<S: Sink>(out: &mut S, recovery: Option<Recovery>) -> Result<(), SinkFault>
    ensures { PutsOrFails S.contents S.failed out.old out.new
        (flat_map recovery_line (those recovery)) result }
{
    match recovery {
        Some(recovery) => line(out, recovery),
        None => out.put(b""),
    }
}

fn line<S: Sink>(out: &mut S, recovery: Recovery) -> Result<(), SinkFault>
    ensures { PutsOrFails S.contents S.failed out.old out.new (recovery_line recovery) result }
{
    number_after(out, b"Recovering      : member ", recovery.member)?;
    share(out, recovery.chunks, recovery.missing)?;
    number_after(out, b", all before sector ", recovery.offset)?;
    number_after(out, b" but ", recovery.marked)?;
    out.put(b" marked\n")?;
    Ok(())
}

// How many of so many chunks it has.
#[tactic(auto, unfolding(crate::specs::Recovery::share_text), using(md_streams::proofs::Puts::puts_then))]
fn share<S: Sink>(out: &mut S, chunks: u32, missing: u32) -> Result<(), SinkFault>
    ensures { PutsOrFails S.contents S.failed out.old out.new (share_text chunks missing) result }
{
    let held = chunks.saturating_sub(missing);
    number_after(out, b" has ", held)?;
    number_after(out, b" of ", chunks)?;
    number_after(out, b" chunks (", percent(held, chunks))?;
    out.put(b" %)")?;
    Ok(())
}

fn percent(part: u32, whole: u32) -> u64
    ensures { result ≡ percent part whole }
{
    u64::from(part) * 100 / u64::from(whole.max(1))
}

/// How far member k is, if it is recovering.
pub(crate) fn recovery_at<D: Device + Drop>(mirror: &Mirror<D>, k: usize) -> Option<Recovery>
    requires { k < length mirror.now.array.members }
    ensures { (m : MemberView) → IsMember mirror.now.array k m → result ≡ recovery_if mirror.now.array k m }
{
    if mirror.state(k).is_recovering() {
        Some(recovery_of(mirror, k))
    } else {
        None
    }
}

fn recovery_of<D: Device + Drop>(mirror: &Mirror<D>, k: usize) -> Recovery
    requires { k < length mirror.now.array.members }
    ensures { (m : MemberView) → IsMember mirror.now.array k m → result ≡ recovery_of mirror.now.array k m }
{
    let offset = offset_said(mirror, k);
    let chunks = mirror.marks().chunks();
    Recovery {
        member: k,
        offset,
        chunks,
        missing: lacked_to(mirror, k, chunks),
        marked: marked_to(mirror, offset, chunks),
    }
}

// Its superblock's offset. One past the array's size counts as the size.
fn offset_said<D: Device + Drop>(mirror: &Mirror<D>, k: usize) -> u64
    requires { k < length mirror.now.array.members }
    ensures { (m : MemberView) → IsMember mirror.now.array k m → result ≡ offset_said mirror.now.array m }
{
    mirror.own(k).recovery_offset.min(mirror.chunks().size)
}

// How many of the first so many chunks member k lacks.
fn lacked_to<D: Device + Drop>(mirror: &Mirror<D>, k: usize, end: u32) -> u32
    requires within { k < length mirror.now.array.members }
    requires chunks { end ≤ mirror.now.array.marks.chunks }
    ensures { (m : MemberView) → IsMember mirror.now.array k m → result ≡ lacked_to mirror.now.array m end }
{
    let mut count = 0;
    for chunk in 0..end {
        if mirror.is_missing(k, chunk) {
            count += 1;
        }
    }
    count
}

// How many of the first so many chunks are marked, and have no sector at this one or past it.
fn marked_to<D: Device + Drop>(mirror: &Mirror<D>, sector: u64, end: u32) -> u32
    requires { end ≤ mirror.now.array.marks.chunks }
    ensures { result ≡ marked_to mirror.now.array sector end }
{
    let mut count = 0;
    for chunk in 0..end {
        if is_marked_before(mirror, sector, chunk) {
            count += 1;
        }
    }
    count
}

fn is_marked_before<D: Device + Drop>(mirror: &Mirror<D>, sector: u64, chunk: u32) -> bool
    requires { chunk < mirror.now.array.marks.chunks }
    ensures { result ≡ is_marked_before mirror.now.array sector chunk }
{
    mirror.marks().is_marked(chunk) && is_passed(mirror, sector, chunk)
}

// Whether no sector of the chunk is at this one or past it. The last chunk may be shorter than the others.
fn is_passed<D: Device + Drop>(mirror: &Mirror<D>, sector: u64, chunk: u32) -> bool
    ensures { result ≡ is_passed (geometry_of mirror.now.array) sector chunk }
{
    let chunks = mirror.chunks();
    let end = (u64::from(chunk) + 1) * u64::from(chunks.sectors);
    chunks.size <= sector || end <= sector
}
