// The report on all arrays as an object.
ghost use Rattle.std.specs.Prelude.{◌≡◌, ◌<◌, ◌+◌, ◌++◌, ◌||◌, [], Some, codes, drop, false, if◌then◌else◌, length, slice_get};
ghost use Rattle.std.specs.List.{filter, fold};
ghost use Rattle.json.specs.Print.{quoted};
ghost use Rattle.serde_json.specs.Written.{comma_if, compact_text};
ghost use Rattle.md_assembly.specs.States.{role_of, state_of};
ghost use Rattle.md_streams.specs.Sink.{PutsOrFails};
ghost use Rattle.md_report.specs.AsJson.WholeArray.MemberObjects.{number_or_null};
ghost use Rattle.md_report.specs.AsJson.Objects.{elements_text, later_text, list_of, next_text, object_line, whole};
ghost use Rattle.md_examine_commands.specs.ScanObject.{array_at_value, arrays_value, first_places, is_first_at, is_unseen_role, members_value, scan_array_object, scan_fields, scan_member_object, scan_member_object_in, scan_object, state_word, unseen_roles};
ghost use Rattle.md_examine_commands.specs.ScanText.{decider, fresher, is_same_array};

use crate::scan::member_comments::is_taken;
use crate::scan::refused::Refused;
use crate::scan::refused_list::put_refused_list;
use crate::scan::report::is_told_before;
use crate::scan::seen::{Seen, decider, is_same_array};
use itoa::Buffer;
use md_assembly::{MemberState, state_of};
use md_report::as_json::values::{
    close, comma_if, next_key, next_name, next_null, next_number, next_text, next_uuid, open,
    open_number,
};
use md_streams::{Sink, SinkFault};
use md_super::Superblock;

/// Writes of which arrays images are members, and which are none, as an object, alone in its line. It takes no memory, and fails
/// only where the sink has failed.
pub fn scan_json<S: Sink>(
    out: &mut S,
    is_named: bool,
    all: &[Seen<'_>],
    refused: &[Refused<'_>],
) -> Result<(), SinkFault>
    ensures { PutsOrFails S.contents S.failed out.old out.new
        (object_line (scan_object is_named all.now refused.now)) result }
{
    open(out, "scan")?;
    put_lists(out, is_named, all, refused)?;
    close(out)?;
    Ok(())
}

fn put_lists<S: Sink>(
    out: &mut S,
    is_named: bool,
    all: &[Seen<'_>],
    refused: &[Refused<'_>],
) -> Result<(), SinkFault>
    ensures { PutsOrFails S.contents S.failed out.old out.new
        (later_text (scan_fields is_named all.now refused.now)) result }
{
    put_arrays(out, all)?;
    put_refused_list(out, is_named, refused)?;
    Ok(())
}

fn put_arrays<S: Sink>(out: &mut S, all: &[Seen<'_>]) -> Result<(), SinkFault>
    ensures { PutsOrFails S.contents S.failed out.old out.new
        (next_text (codes "arrays") (compact_text (arrays_value all.now))) result }
{
    next_key(out, "arrays")?;
    out.put(b"[")?;
    array_elements(out, all)?;
    out.put(b"]")?;
    Ok(())
}

fn array_elements<S: Sink>(out: &mut S, all: &[Seen<'_>]) -> Result<(), SinkFault>
    ensures { PutsOrFails S.contents S.failed out.old out.new
        (elements_text (array_at_value all.now) false (first_places all.now)) result }
{
    let mut later = false;
    for place in 0..all.len() {
        let is_there = is_first(all, place);
        array_where(out, later, is_there, all, place)?;
        later = stands_before(later, is_there);
    }
    Ok(())
}

// No image before this one is of its array.
fn is_first(all: &[Seen<'_>], place: usize) -> bool
    requires { place < length all.now }
    ensures { result ≡ is_first_at all.now place }
{
    !is_told_before(&all[place], &all[..place])
}

/// Whether an element stands before the next one.
pub(crate) fn stands_before(later: bool, is_there: bool) -> bool
    ensures { result ≡ (later || is_there) }
{
    later || is_there
}

#[tactic(auto, using(md_streams::proofs::Puts::puts_then))]
fn array_where<S: Sink>(
    out: &mut S,
    later: bool,
    is_there: bool,
    all: &[Seen<'_>],
    place: usize,
) -> Result<(), SinkFault>
    requires { place < length all.now }
    ensures { PutsOrFails S.contents S.failed out.old out.new
        (if is_there then (comma_if later ++ compact_text (array_at_value all.now place)) else []) result }
{
    if !is_there {
        return Ok(());
    }
    out.put(comma_if(later))?;
    array_at(out, all, place)?;
    Ok(())
}

fn array_at<S: Sink>(out: &mut S, all: &[Seen<'_>], place: usize) -> Result<(), SinkFault>
    requires { place < length all.now }
    ensures { PutsOrFails S.contents S.failed out.old out.new
        (compact_text (array_at_value all.now place)) result }
{
    array_of(out, image_at(all, place), images_after(all, place), all)
}

fn images_after<'a, 'b>(all: &'a [Seen<'b>], place: usize) -> &'a [Seen<'b>]
    requires { place < length all.now }
    ensures { result.now ≡ drop (place + 1) all.now }
{
    &all[place + 1..]
}

fn image_at<'a, 'b>(all: &'a [Seen<'b>], place: usize) -> &'a Seen<'b>
    requires { place < length all.now }
    ensures { slice_get all.now place ≡ Some result.now }
{
    &all[place]
}

// The array of this image, which the rest follows in the list of all.
fn array_of<S: Sink>(
    out: &mut S,
    first: &Seen<'_>,
    rest: &[Seen<'_>],
    all: &[Seen<'_>],
) -> Result<(), SinkFault>
    ensures { PutsOrFails S.contents S.failed out.old out.new
        (compact_text (scan_array_object
        (decider all.now (fold fresher first.now.superblock rest.now)) all.now)) result }
{
    let v = decider(&first.superblock, rest, all);
    array(out, v, all)
}

fn array<S: Sink>(out: &mut S, v: &Superblock, all: &[Seen<'_>]) -> Result<(), SinkFault>
    ensures { PutsOrFails S.contents S.failed out.old out.new
        (compact_text (scan_array_object v.now all.now)) result }
{
    open_number(out, "raid_devices", v.raid_disks)?;
    next_uuid(out, "array_uuid", &v.set_uuid)?;
    next_name(out, "name", &v.set_name)?;
    next_text(out, "raid_level", b"raid1")?;
    next_text(out, "metadata", b"1.2")?;
    next_number(out, "events", v.events)?;
    members(out, v, all)?;
    missing(out, v, all)?;
    out.put(b"}")?;
    Ok(())
}

fn members<S: Sink>(out: &mut S, v: &Superblock, all: &[Seen<'_>]) -> Result<(), SinkFault>
    ensures { PutsOrFails S.contents S.failed out.old out.new
        (next_text (codes "members") (compact_text (members_value v.now all.now))) result }
{
    next_key(out, "members")?;
    out.put(b"[")?;
    member_elements(out, v, all)?;
    out.put(b"]")?;
    Ok(())
}

fn member_elements<S: Sink>(out: &mut S, v: &Superblock, all: &[Seen<'_>]) -> Result<(), SinkFault>
    ensures { PutsOrFails S.contents S.failed out.old out.new
        (elements_text (scan_member_object v.now) false (filter (is_same_array v.now) all.now)) result }
{
    let mut later = false;
    for seen in all {
        let is_there = is_same_array(v, seen);
        member_where(out, later, is_there, v, seen)?;
        later = stands_before(later, is_there);
    }
    Ok(())
}

#[tactic(auto, using(md_streams::proofs::Puts::puts_then))]
fn member_where<S: Sink>(
    out: &mut S,
    later: bool,
    is_there: bool,
    v: &Superblock,
    seen: &Seen<'_>,
) -> Result<(), SinkFault>
    ensures { PutsOrFails S.contents S.failed out.old out.new
        (if is_there then (comma_if later ++ compact_text (scan_member_object v.now seen.now)) else [])
        result }
{
    if !is_there {
        return Ok(());
    }
    out.put(comma_if(later))?;
    member(out, v, seen)?;
    Ok(())
}

fn member<S: Sink>(out: &mut S, v: &Superblock, seen: &Seen<'_>) -> Result<(), SinkFault>
    ensures { PutsOrFails S.contents S.failed out.old out.new
        (compact_text (scan_member_object v.now seen.now)) result }
{
    member_in(out, state_of(v, &seen.superblock), seen)
}

fn member_in<S: Sink>(out: &mut S, state: MemberState, seen: &Seen<'_>) -> Result<(), SinkFault>
    ensures { PutsOrFails S.contents S.failed out.old out.new
        (compact_text (scan_member_object_in state seen.now)) result }
{
    let own = &seen.superblock;
    open_number(out, "device_number", own.dev_number)?;
    put_image(out, seen.name)?;
    next_uuid(out, "device_uuid", &own.device_uuid)?;
    role(out, state)?;
    put_state(out, state)?;
    next_number(out, "events", own.events)?;
    out.put(b"}")?;
    Ok(())
}

fn put_image<S: Sink>(out: &mut S, name: &str) -> Result<(), SinkFault>
    ensures { PutsOrFails S.contents S.failed out.old out.new
        (next_text (codes "image") (quoted name.now)) result }
{
    next_text(out, "image", name.as_bytes())
}

fn role<S: Sink>(out: &mut S, state: MemberState) -> Result<(), SinkFault>
    ensures { PutsOrFails S.contents S.failed out.old out.new
        (next_text (codes "role") (compact_text (number_or_null (role_of state)))) result }
{
    match state {
        MemberState::InSync(role) => next_number(out, "role", role),
        MemberState::Recovering(role) => next_number(out, "role", role),
        MemberState::Stale(role) => next_number(out, "role", role),
        MemberState::Spare => next_null(out, "role"),
        MemberState::Faulty => next_null(out, "role"),
    }
}

fn put_state<S: Sink>(out: &mut S, state: MemberState) -> Result<(), SinkFault>
    ensures { PutsOrFails S.contents S.failed out.old out.new
        (next_text (codes "state") (quoted (state_word state))) result }
{
    next_text(out, "state", state_word(state).as_bytes())
}

fn state_word(state: MemberState) -> &'static str
    ensures { result.now ≡ state_word state }
{
    match state {
        MemberState::InSync(_) => "in sync",
        MemberState::Recovering(_) => "recovering",
        MemberState::Stale(_) => "stale",
        MemberState::Spare => "spare",
        MemberState::Faulty => "faulty",
    }
}

fn missing<S: Sink>(out: &mut S, v: &Superblock, all: &[Seen<'_>]) -> Result<(), SinkFault>
    ensures { PutsOrFails S.contents S.failed out.old out.new
        (next_text (codes "missing") (compact_text (list_of whole (unseen_roles v.now all.now)))) result }
{
    next_key(out, "missing")?;
    out.put(b"[")?;
    missing_elements(out, v, all)?;
    out.put(b"]")?;
    Ok(())
}

fn missing_elements<S: Sink>(out: &mut S, v: &Superblock, all: &[Seen<'_>]) -> Result<(), SinkFault>
    ensures { PutsOrFails S.contents S.failed out.old out.new
        (elements_text whole false (unseen_roles v.now all.now)) result }
{
    let mut later = false;
    for role in 0..v.raid_disks {
        let is_there = is_unseen_role(v, all, role);
        missing_where(out, later, is_there, role)?;
        later = stands_before(later, is_there);
    }
    Ok(())
}

// Whether none of the images has the role.
fn is_unseen_role(v: &Superblock, all: &[Seen<'_>], role: u32) -> bool
    ensures { result ≡ is_unseen_role v.now all.now role }
{
    !is_taken(v, all, role)
}

#[tactic(auto, using(md_streams::proofs::Puts::puts_then))]
fn missing_where<S: Sink>(
    out: &mut S,
    later: bool,
    is_there: bool,
    role: u32,
) -> Result<(), SinkFault>
    ensures { PutsOrFails S.contents S.failed out.old out.new
        (if is_there then (comma_if later ++ compact_text (whole role)) else []) result }
{
    if !is_there {
        return Ok(());
    }
    let mut buffer = Buffer::new();
    out.put(comma_if(later))?;
    out.put(buffer.format(role).as_bytes())?;
    Ok(())
}
