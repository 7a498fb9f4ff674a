// The members of an array, with the images that they are on.
ghost use Rattle.std.specs.Prelude.{◌≡◌, ◌++◌, ◌∷◌, codes, nat_lt};
ghost use Rattle.std.specs.List.{slice_get};
ghost use Rattle.json.specs.Print.{quoted};
ghost use Rattle.serde_json.specs.Written.{comma_if, compact_text};
ghost use Rattle.md_assembly.specs.States.{role_of};
ghost use Rattle.md_streams.specs.Sink.{PutsOrFails};
ghost use Rattle.md_report.specs.AsText.WholeArray.DetailReport.{standing_text};
ghost use Rattle.md_report.specs.AsJson.WholeArray.ArrayObjects.{members_fields};
ghost use Rattle.md_report.specs.AsJson.WholeArray.MemberObjects.{image_value, member_object, member_texts, number_or_null, texts_of, word_or_null};
ghost use Rattle.md_report.specs.AsJson.Objects.{key_text, later_text, next_text};

use crate::as_json::quoting::put_quoted;
use crate::as_json::values::{
    comma_if, key, next_bool, next_key, next_null, next_number, next_text,
};
use md_array::Mirror;
use md_assembly::MemberState;
use md_device::Device;
use md_kept_members::is_write_mostly;
use md_streams::{Sink, SinkFault};

/// The last field of a report on an array: its members, of which `images` are the names.
pub(crate) fn members<S: Sink, D: Device + Drop>(
    out: &mut S,
    mirror: &Mirror<D>,
    images: &[&str],
) -> Result<(), SinkFault>
    ensures { PutsOrFails S.contents S.failed out.old out.new
        (later_text (members_fields mirror.now.array (texts_of images.now))) result }
{
    next_key(out, "members")?;
    out.put(b"[")?;
    member_items(out, mirror, images)?;
    out.put(b"]")?;
    Ok(())
}

fn member_items<S: Sink, D: Device + Drop>(
    out: &mut S,
    mirror: &Mirror<D>,
    images: &[&str],
) -> Result<(), SinkFault>
    ensures { PutsOrFails S.contents S.failed out.old out.new
        (member_texts mirror.now.array (texts_of images.now) 0 mirror.now.array.members) result }
{
    for k in 0..mirror.members() {
        let own = mirror.own(k);
        let mostly = is_write_mostly(own);
        member_item(
            out,
            images,
            k,
            own.dev_number,
            mirror.state(k),
            mirror.re_added(k),
            mostly,
        )?;
    }
    Ok(())
}

// A member after a comma, unless it is the first.
#[tactic(auto, using(md_streams::proofs::Puts::puts_then))]
fn member_item<S: Sink>(
    out: &mut S,
    images: &[&str],
    index: usize,
    dev_number: u32,
    state: MemberState,
    re_added: bool,
    mostly: bool,
) -> Result<(), SinkFault>
    ensures { PutsOrFails S.contents S.failed out.old out.new
        (comma_if (nat_lt 0 index)
        ++ compact_text (member_object (texts_of images.now) index dev_number state re_added mostly)) result }
{
    out.put(comma_if(index > 0))?;
    member(out, images, index, dev_number, state, re_added, mostly)?;
    Ok(())
}

fn member<S: Sink>(
    out: &mut S,
    images: &[&str],
    index: usize,
    dev_number: u32,
    state: MemberState,
    re_added: bool,
    mostly: bool,
) -> Result<(), SinkFault>
    ensures { PutsOrFails S.contents S.failed out.old out.new
        (compact_text (member_object (texts_of images.now) index dev_number state re_added mostly)) result }
{
    open_member(out, images, index)?;
    next_number(out, "index", index)?;
    next_number(out, "device_number", dev_number)?;
    role(out, state)?;
    standing_field(out, state, re_added)?;
    next_bool(out, "write_mostly", mostly)?;
    out.put(b"}")?;
    Ok(())
}

#[tactic(auto, using(md_streams::proofs::Puts::puts_then))]
fn open_member<S: Sink>(out: &mut S, images: &[&str], index: usize) -> Result<(), SinkFault>
    ensures { PutsOrFails S.contents S.failed out.old out.new
        (123 ∷ (key_text (codes "image") ++ compact_text (image_value (texts_of images.now) index))) result }
{
    out.put(b"{")?;
    key(out, "image")?;
    image(out, images, index)?;
    Ok(())
}

fn image<S: Sink>(out: &mut S, images: &[&str], index: usize) -> Result<(), SinkFault>
    ensures { PutsOrFails S.contents S.failed out.old out.new
        (compact_text (image_value (texts_of images.now) index)) result }
{
    word_or_null(out, image_at(images, index))
}

/// The image of the member with this index.
pub(crate) fn image_at<'a>(images: &[&'a str], index: usize) -> Option<&'a str>
    ensures { result ≡ slice_get images.now index }
{
    images.get(index).copied()
}

fn word_or_null<S: Sink>(out: &mut S, word: Option<&str>) -> Result<(), SinkFault>
    ensures { PutsOrFails S.contents S.failed out.old out.new (compact_text (word_or_null word.entry)) result }
{
    match word {
        Some(word) => put_quoted(out, word.as_bytes()),
        None => out.put(b"null"),
    }
}

fn role<S: Sink>(out: &mut S, state: MemberState) -> Result<(), SinkFault>
    ensures { PutsOrFails S.contents S.failed out.old out.new
        (next_text (codes "role") (compact_text (number_or_null (role_of state)))) result }
{
    match state {
        MemberState::InSync(role) | MemberState::Recovering(role) | MemberState::Stale(role) => {
            next_number(out, "role", role)
        }
        MemberState::Spare | MemberState::Faulty => next_null(out, "role"),
    }
}

fn standing_field<S: Sink>(out: &mut S, state: MemberState, re_added: bool) -> Result<(), SinkFault>
    ensures { PutsOrFails S.contents S.failed out.old out.new
        (next_text (codes "state") (quoted (standing_text state re_added))) result }
{
    next_text(out, "state", standing(state, re_added).as_bytes())
}

fn standing(state: MemberState, re_added: bool) -> &'static str
    ensures { result.now ≡ standing_text state re_added }
{
    match state {
        MemberState::InSync(_) => "in sync",
        MemberState::Recovering(_) if re_added => "re-added",
        MemberState::Recovering(_) => "recovering",
        MemberState::Stale(_) => "stale",
        MemberState::Spare => "spare",
        MemberState::Faulty => "faulty",
    }
}
