// The object of a superblock as it stands, though it may be none.
ghost use Rattle.std.specs.Prelude.{◌≡◌, ◌<◌, ◌≤◌, ◌++◌, [], codes, false, if◌then◌else◌, map};
ghost use Rattle.std.specs.List.{filter, range_with_len};
ghost use Rattle.serde_json.specs.Written.{comma_if, compact_text};
ghost use Rattle.md_streams.specs.Sink.{PutsOrFails};
ghost use Rattle.md_raw_reports.specs.SuperFaults.{faults_of, is_seen};
ghost use Rattle.md_report.specs.AsJson.Objects.{elements_text, later_text, object_line, next_text};
ghost use Rattle.md_raw_reports.specs.RawJson.RawFields.{row_field};
ghost use Rattle.md_raw_reports.specs.RawJson.RawSuper.{computed_value, fault_fields, fault_list, super_fault_value, found_array, found_fields, found_object, found_sector, has_role, is_found, known_fields, raw_super_object, role_at, role_list, role_object, sum_fields, super_rows, unread_fields, unread_value};

use crate::raw_json::raw_fields::{next_fields, stands_before, text_where};
use crate::super_faults::{
    roles_read_in, super_fault_is_seen, super_fault_name, super_faults_of, unsupported_features,
};
use crate::super_fields::{Found, SUPER_FIELDS};
use md_examine::hex_digits;
use md_format::{u16_at, u32_at};
use md_report::as_json::values::{
    close, comma_if, next_key, next_null, next_number, next_text, next_uuid, open, open_number,
};
use md_streams::{Sink, SinkFault};
use md_super::{SPARE, SUPER_SECTOR, SuperFault, checksum};

// The sectors of a superblock.
const SUPER_SECTORS: u32 = 8;

/// Writes a superblock as it stands as an object, alone in its line, though it may be refused, and though only the first so many of
/// its sectors could be read: the first that could not, the faults that stand, its fields, the checksum that its bytes have, each
/// role that is not that of a spare, and what was found at other places. It takes no memory, and fails only where the sink has
/// failed.
pub fn raw_super_json<S: Sink>(
    out: &mut S,
    read: u32,
    bytes: &[u8; 4096],
    found: &[Found],
) -> Result<(), SinkFault>
    requires { read ≤ 8 }
    ensures { PutsOrFails S.contents S.failed out.old out.new
        (object_line (raw_super_object read bytes.now found.now)) result }
{
    open(out, "examine --all")?;
    unread(out, read)?;
    known_part(out, read, bytes)?;
    elsewhere(out, found)?;
    close(out)?;
    Ok(())
}

/// The first sector of a superblock that could not be read, if one could not.
pub(crate) fn unread<S: Sink>(out: &mut S, read: u32) -> Result<(), SinkFault>
    ensures { PutsOrFails S.contents S.failed out.old out.new (later_text (unread_fields read)) result }
{
    next_unread(out, read)?;
    Ok(())
}

fn next_unread<S: Sink>(out: &mut S, read: u32) -> Result<(), SinkFault>
    ensures { PutsOrFails S.contents S.failed out.old out.new
        (next_text (codes "unreadable_at") (compact_text (unread_value read))) result }
{
    if read < SUPER_SECTORS {
        next_number(out, "unreadable_at", SUPER_SECTOR + u64::from(read))
    } else {
        next_null(out, "unreadable_at")
    }
}

#[tactic(auto, unfolding(crate::specs::RawJson::RawSuper::known_fields, md_report::specs::AsJson::Objects::later_text), using(md_streams::proofs::Puts::puts_then))]
fn known_part<S: Sink>(out: &mut S, read: u32, bytes: &[u8; 4096]) -> Result<(), SinkFault>
    requires { read ≤ 8 }
    ensures { PutsOrFails S.contents S.failed out.old out.new (later_text (known_fields read bytes.now)) result }
{
    if read == 0 {
        return Ok(());
    }
    seen_part(out, read, bytes)
}

fn seen_part<S: Sink>(out: &mut S, read: u32, bytes: &[u8; 4096]) -> Result<(), SinkFault>
    requires some { 0 < read }
    requires few { read ≤ 8 }
    ensures { PutsOrFails S.contents S.failed out.old out.new
        (later_text (fault_fields read bytes.now ++ (map (row_field bytes.now) super_rows ++ sum_fields read bytes.now))) result }
{
    faults(out, read, bytes)?;
    next_fields(out, bytes, &SUPER_FIELDS)?;
    sums(out, read, bytes)?;
    Ok(())
}

fn faults<S: Sink>(out: &mut S, read: u32, bytes: &[u8; 4096]) -> Result<(), SinkFault>
    requires some { 0 < read }
    requires few { read ≤ 8 }
    ensures { PutsOrFails S.contents S.failed out.old out.new (later_text (fault_fields read bytes.now)) result }
{
    next_faults(out, "faults", read, bytes)?;
    next_number(out, "unsupported_features", unsupported_features(bytes))?;
    Ok(())
}

/// The faults that stand, as far as the first so many sectors tell of them.
pub(crate) fn next_faults<S: Sink>(
    out: &mut S,
    name: &str,
    read: u32,
    bytes: &[u8; 4096],
) -> Result<(), SinkFault>
    requires some { 0 < read }
    requires few { read ≤ 8 }
    ensures { PutsOrFails S.contents S.failed out.old out.new
        (next_text name.now (compact_text (fault_list read bytes.now))) result }
{
    next_key(out, name)?;
    out.put(b"[")?;
    fault_elements(out, read, bytes, &super_faults_of(bytes))?;
    out.put(b"]")?;
    Ok(())
}

fn fault_elements<S: Sink>(
    out: &mut S,
    read: u32,
    bytes: &[u8; 4096],
    faults: &[SuperFault],
) -> Result<(), SinkFault>
    requires some { 0 < read }
    requires few { read ≤ 8 }
    ensures { PutsOrFails S.contents S.failed out.old out.new
        (elements_text super_fault_value false (filter (is_seen read bytes.now) faults.now)) result }
{
    let mut later = false;
    for fault in faults {
        let is_there = super_fault_is_seen(read, bytes, *fault);
        text_where(out, later, is_there, super_fault_name(*fault))?;
        later = stands_before(later, is_there);
    }
    Ok(())
}

fn sums<S: Sink>(out: &mut S, read: u32, bytes: &[u8; 4096]) -> Result<(), SinkFault>
    requires some { 0 < read }
    requires few { read ≤ 8 }
    ensures { PutsOrFails S.contents S.failed out.old out.new (later_text (sum_fields read bytes.now)) result }
{
    next_computed(out, read, bytes)?;
    roles(out, read, bytes)?;
    Ok(())
}

// The checksum that the bytes have, where these sectors hold all that it covers.
fn next_computed<S: Sink>(out: &mut S, read: u32, bytes: &[u8; 4096]) -> Result<(), SinkFault>
    requires some { 0 < read }
    requires few { read ≤ 8 }
    ensures { PutsOrFails S.contents S.failed out.old out.new
        (next_text (codes "computed_checksum") (compact_text (computed_value read bytes.now))) result }
{
    let max_dev = u32_at(bytes, 220);
    if max_dev <= roles_read_in(read) {
        let digits = hex_digits(checksum(bytes, max_dev));
        next_text(out, "computed_checksum", &digits)
    } else {
        next_null(out, "computed_checksum")
    }
}

// Each role for which these sectors have room, but for those of spares.
fn roles<S: Sink>(out: &mut S, read: u32, bytes: &[u8; 4096]) -> Result<(), SinkFault>
    requires some { 0 < read }
    requires few { read ≤ 8 }
    ensures { PutsOrFails S.contents S.failed out.old out.new
        (next_text (codes "roles") (compact_text (role_list read bytes.now))) result }
{
    let count = u32_at(bytes, 220).min(roles_read_in(read));
    next_key(out, "roles")?;
    out.put(b"[")?;
    role_elements(out, bytes, count)?;
    out.put(b"]")?;
    Ok(())
}

fn role_elements<S: Sink>(out: &mut S, bytes: &[u8; 4096], count: u32) -> Result<(), SinkFault>
    requires { count ≤ 1920 }
    ensures { PutsOrFails S.contents S.failed out.old out.new
        (elements_text (role_object bytes.now) false (filter (has_role bytes.now) (range_with_len 0 count))) result }
{
    let mut later = false;
    for number in 0..count {
        let is_there = has_role(bytes, number);
        role_where(out, later, is_there, bytes, number)?;
        later = stands_before(later, is_there);
    }
    Ok(())
}

fn has_role(bytes: &[u8; 4096], number: u32) -> bool
    requires { number < 1920 }
    ensures { result ≡ has_role bytes.now number }
{
    role_at(bytes, number) != SPARE
}

fn role_at(bytes: &[u8; 4096], number: u32) -> u16
    requires { number < 1920 }
    ensures { result ≡ role_at bytes.now number }
{
    u16_at(bytes, 256 + 2 * number as usize)
}

#[tactic(auto, using(md_streams::proofs::Puts::puts_then))]
fn role_where<S: Sink>(
    out: &mut S,
    later: bool,
    is_there: bool,
    bytes: &[u8; 4096],
    number: u32,
) -> Result<(), SinkFault>
    requires { number < 1920 }
    ensures { PutsOrFails S.contents S.failed out.old out.new
        (if is_there then (comma_if later ++ compact_text (role_object bytes.now number)) else []) result }
{
    if !is_there {
        return Ok(());
    }
    out.put(comma_if(later))?;
    role(out, bytes, number)?;
    Ok(())
}

fn role<S: Sink>(out: &mut S, bytes: &[u8; 4096], number: u32) -> Result<(), SinkFault>
    requires { number < 1920 }
    ensures { PutsOrFails S.contents S.failed out.old out.new
        (compact_text (role_object bytes.now number)) result }
{
    open_number(out, "device_number", number)?;
    next_number(out, "role", role_at(bytes, number))?;
    out.put(b"}")?;
    Ok(())
}

fn elsewhere<S: Sink>(out: &mut S, found: &[Found]) -> Result<(), SinkFault>
    ensures { PutsOrFails S.contents S.failed out.old out.new (later_text (found_fields found.now)) result }
{
    next_key(out, "elsewhere")?;
    out.put(b"[")?;
    found_elements(out, found)?;
    out.put(b"]")?;
    Ok(())
}

fn found_elements<S: Sink>(out: &mut S, found: &[Found]) -> Result<(), SinkFault>
    ensures { PutsOrFails S.contents S.failed out.old out.new
        (elements_text found_object false (filter is_found found.now)) result }
{
    let mut later = false;
    for place in found {
        let is_there = is_found(place);
        found_where(out, later, is_there, place)?;
        later = stands_before(later, is_there);
    }
    Ok(())
}

fn is_found(found: &Found) -> bool
    ensures { result ≡ is_found found.now }
{
    match found {
        Found::Nothing => false,
        Found::Unreadable(_) | Found::Superblock(_, _) => true,
    }
}

#[tactic(auto, using(md_streams::proofs::Puts::puts_then))]
fn found_where<S: Sink>(
    out: &mut S,
    later: bool,
    is_there: bool,
    found: &Found,
) -> Result<(), SinkFault>
    ensures { PutsOrFails S.contents S.failed out.old out.new
        (if is_there then (comma_if later ++ compact_text (found_object found.now)) else []) result }
{
    if !is_there {
        return Ok(());
    }
    out.put(comma_if(later))?;
    place(out, found)?;
    Ok(())
}

fn place<S: Sink>(out: &mut S, found: &Found) -> Result<(), SinkFault>
    ensures { PutsOrFails S.contents S.failed out.old out.new (compact_text (found_object found.now)) result }
{
    open_number(out, "sector", found_sector(found))?;
    next_array(out, found)?;
    out.put(b"}")?;
    Ok(())
}

fn found_sector(found: &Found) -> u64
    ensures { result ≡ found_sector found.now }
{
    match found {
        Found::Nothing => 0,
        Found::Unreadable(sector) => *sector,
        Found::Superblock(sector, _) => *sector,
    }
}

fn next_array<S: Sink>(out: &mut S, found: &Found) -> Result<(), SinkFault>
    ensures { PutsOrFails S.contents S.failed out.old out.new
        (next_text (codes "array_uuid") (compact_text (found_array found.now))) result }
{
    match found {
        Found::Nothing => next_null(out, "array_uuid"),
        Found::Unreadable(_) => next_null(out, "array_uuid"),
        Found::Superblock(_, id) => next_uuid(out, "array_uuid", id),
    }
}
