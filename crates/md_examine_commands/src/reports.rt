// The reports on one image are put out, and what the output holds back of them is passed on.
ghost use Rattle.std.specs.Prelude.{◌≡◌, ◌≤◌, [], true};
ghost use Rattle.md_refusals.specs.Output.{ShowsText};
ghost use Rattle.md_examine_commands.specs.Examining.{badblocks_shown, bitmap_shown, no_array_line, raw_bitmap_shown, raw_log_shown, raw_superblock_shown, scan_shown, superblock_shown};

use crate::scan::{Looked, Refused, Seen, scan_json, scan_report};
use md_badblocks::BadSet;
use md_bitmap::{BitmapHeader, Marks};
use md_examine::{examine, examine_badblocks, examine_bitmap};
use md_raw_reports::{
    Found, RawBitmap, examine_all, examine_badblocks_all, examine_bitmap_all, raw_bitmap_json,
    raw_log_json, raw_super_json,
};
use md_refusals::CommandFault;
use md_report::{badblocks_json, bitmap_json, superblock_json};
use md_streams::Sink;
use md_super::Superblock;

pub(crate) fn put_superblock<S: Sink>(
    out: &mut S,
    json: bool,
    v: &Superblock,
) -> Result<(), CommandFault>
    ensures { ShowsText S.Sink (superblock_shown json v.now) out.old out.new result }
{
    if json {
        superblock_json(out, v)?;
        out.flush()?;
        return Ok(());
    }
    examine(out, v)?;
    out.flush()?;
    Ok(())
}

pub(crate) fn put_bitmap<S: Sink>(
    out: &mut S,
    json: bool,
    header: &BitmapHeader,
    marks: &Marks,
) -> Result<(), CommandFault>
    ensures { ShowsText S.Sink (bitmap_shown json header.now marks.now) out.old out.new result }
{
    if json {
        bitmap_json(out, header, marks)?;
        out.flush()?;
        return Ok(());
    }
    examine_bitmap(out, header, marks)?;
    out.flush()?;
    Ok(())
}

pub(crate) fn put_badblocks<S: Sink>(
    out: &mut S,
    json: bool,
    bad: &BadSet,
) -> Result<(), CommandFault>
    ensures { ShowsText S.Sink (badblocks_shown json bad.now) out.old out.new result }
{
    if json {
        badblocks_json(out, bad)?;
        out.flush()?;
        return Ok(());
    }
    examine_badblocks(out, bad)?;
    out.flush()?;
    Ok(())
}

/// Shows of which arrays images are members, by their superblocks; as an object also which of them show no member, and why, of
/// those that a person named, or where that is news. Where none is a member the object says so.
pub fn show_scan<S: Sink>(
    json: bool,
    is_named: bool,
    looked: &Looked<'_>,
    out: &mut S,
) -> Result<(), CommandFault>
    ensures shows { ShowsText S.Sink
        (scan_shown json is_named looked.now.seen.items looked.now.refused.items) out.old out.new result }
    ensures nothing { json ≡ true → looked.now.seen.items ≡ [] → ShowsText S.Sink
        (no_array_line is_named looked.now.refused.items) out.old out.new result }
{
    put_scan(
        json,
        is_named,
        looked.seen.as_slice(),
        looked.refused.as_slice(),
        out,
    )
}

fn put_scan<S: Sink>(
    json: bool,
    is_named: bool,
    seen: &[Seen<'_>],
    refused: &[Refused<'_>],
    out: &mut S,
) -> Result<(), CommandFault>
    ensures { ShowsText S.Sink (scan_shown json is_named seen.now refused.now) out.old out.new result }
{
    if json {
        scan_json(out, is_named, seen, refused)?;
        out.flush()?;
        return Ok(());
    }
    scan_report(out, seen)?;
    out.flush()?;
    Ok(())
}

/// Puts out what stands where the superblock does, of which so many sectors could be read, and where else one is.
pub(crate) fn put_raw_superblock<S: Sink>(
    out: &mut S,
    json: bool,
    read: u32,
    bytes: &[u8; 4096],
    found: &[Found],
) -> Result<(), CommandFault>
    requires { read ≤ 8 }
    ensures { ShowsText S.Sink (raw_superblock_shown json read bytes.now found.now) out.old out.new result }
{
    if json {
        raw_super_json(out, read, bytes, found)?;
        out.flush()?;
        return Ok(());
    }
    examine_all(out, read, bytes, found)?;
    out.flush()?;
    Ok(())
}

/// Puts out what could be read of the bitmap that the superblock places.
pub(crate) fn put_raw_bitmap<S: Sink>(
    out: &mut S,
    json: bool,
    read: u32,
    superblock: &[u8; 4096],
    bitmap: &RawBitmap,
) -> Result<(), CommandFault>
    requires { read ≤ 8 }
    ensures { ShowsText S.Sink (raw_bitmap_shown json read superblock.now bitmap.now) out.old out.new result }
{
    if json {
        raw_bitmap_json(out, read, superblock, bitmap)?;
        out.flush()?;
        return Ok(());
    }
    examine_bitmap_all(out, read, superblock, bitmap)?;
    out.flush()?;
    Ok(())
}

/// Puts out what could be read of the bad block log that the superblock places.
pub(crate) fn put_raw_badblocks<S: Sink>(
    out: &mut S,
    json: bool,
    read: u32,
    superblock: &[u8; 4096],
    lost: Option<u64>,
    area: &[u8],
) -> Result<(), CommandFault>
    requires { read ≤ 8 }
    ensures { ShowsText S.Sink (raw_log_shown json read superblock.now lost area.now) out.old out.new result }
{
    if json {
        raw_log_json(out, read, superblock, lost, area)?;
        out.flush()?;
        return Ok(());
    }
    examine_badblocks_all(out, read, superblock, lost, area)?;
    out.flush()?;
    Ok(())
}
