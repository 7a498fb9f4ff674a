// The members of an array, a line for each.
ghost use Rattle.std.specs.Prelude.{◌≡◌, codes};
ghost use Rattle.md_streams.specs.Sink.{PutsOrFails};
ghost use Rattle.md_assembly.specs.States.{role_of};
ghost use Rattle.md_report.specs.AsText.WholeArray.DetailReport.{member_lines, member_text, place_text, role_text_or_dash, standing_text, text_where};

use crate::as_text::whole_array::detail_report::text_where;
use itoa::Integer;
use md_array::Mirror;
use md_assembly::MemberState;
use md_device::Device;
use md_examine::{right_aligned, right_aligned_number};
use md_kept_members::is_write_mostly;
use md_streams::{Sink, SinkFault};

// The places of a number.
const PLACES: usize = 6;

/// A line for each member.
pub(crate) fn member_lines<S: Sink, D: Device + Drop>(
    out: &mut S,
    mirror: &Mirror<D>,
) -> Result<(), SinkFault>
    ensures { PutsOrFails S.contents S.failed out.old out.new (member_lines mirror.now.array 0 mirror.now.array.members) result }
{
    for k in 0..mirror.members() {
        let own = mirror.own(k);
        let mostly = is_write_mostly(own);
        member_line(
            out,
            k,
            own.dev_number,
            mirror.state(k),
            mirror.re_added(k),
            mostly,
        )?;
    }
    Ok(())
}

fn member_line<S: Sink>(
    out: &mut S,
    index: usize,
    dev_number: u32,
    state: MemberState,
    re_added: bool,
    mostly: bool,
) -> Result<(), SinkFault>
    ensures { PutsOrFails S.contents S.failed out.old out.new (member_text index dev_number state re_added mostly) result }
{
    number(out, index)?;
    number(out, dev_number)?;
    role(out, state)?;
    standing(out, state, re_added)?;
    flag(out, mostly)?;
    out.put(b"\n")?;
    Ok(())
}

/// Whether the member is write-mostly.
pub(crate) fn flag<S: Sink>(out: &mut S, mostly: bool) -> Result<(), SinkFault>
    ensures { PutsOrFails S.contents S.failed out.old out.new (text_where mostly (codes ", write-mostly")) result }
{
    out.put(text_where(mostly, b", write-mostly"))
}

/// A number in its place.
#[tactic(auto, using(md_streams::proofs::Puts::puts_then))]
pub(crate) fn number<S: Sink, I: Integer>(out: &mut S, n: I) -> Result<(), SinkFault>
    ensures { PutsOrFails S.contents S.failed out.old out.new (place_text (I.text n)) result }
{
    right_aligned_number(out, PLACES, n)?;
    out.put(b" ")?;
    Ok(())
}

/// The role of a member that has one.
pub(crate) fn role<S: Sink>(out: &mut S, state: MemberState) -> Result<(), SinkFault>
    ensures { PutsOrFails S.contents S.failed out.old out.new (place_text (role_text_or_dash (role_of state))) result }
{
    match state {
        MemberState::InSync(role) | MemberState::Recovering(role) | MemberState::Stale(role) => {
            number(out, role)
        }
        MemberState::Spare | MemberState::Faulty => dash(out),
    }
}

#[tactic(auto, using(md_streams::proofs::Puts::puts_then))]
fn dash<S: Sink>(out: &mut S) -> Result<(), SinkFault>
    ensures { PutsOrFails S.contents S.failed out.old out.new (place_text (codes "-")) result }
{
    right_aligned(out, PLACES, b"-")?;
    out.put(b" ")?;
    Ok(())
}

/// What a member is called.
pub(crate) fn standing<S: Sink>(
    out: &mut S,
    state: MemberState,
    re_added: bool,
) -> Result<(), SinkFault>
    ensures { PutsOrFails S.contents S.failed out.old out.new (standing_text state re_added) result }
{
    match state {
        MemberState::InSync(_) => out.put(b"in sync"),
        MemberState::Recovering(_) if re_added => out.put(b"re-added"),
        MemberState::Recovering(_) => out.put(b"recovering"),
        MemberState::Stale(_) => out.put(b"stale"),
        MemberState::Spare => out.put(b"spare"),
        MemberState::Faulty => out.put(b"faulty"),
    }
}
