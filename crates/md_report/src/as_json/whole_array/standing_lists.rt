// The lists of a report in detail.
ghost use Rattle.std.specs.Prelude.{◌≡◌, ◌<◌, ◌++◌, codes, false, if◌then◌else◌, length, []};
ghost use Rattle.serde_json.specs.Written.{comma_if, compact_text};
ghost use Rattle.md_streams.specs.Sink.{PutsOrFails};
ghost use Rattle.md_notices.specs.Noticing.{is_parted_at};
ghost use Rattle.md_report.specs.AsJson.OneImage.BadblocksObject.{run_object};
ghost use Rattle.md_report.specs.AsJson.Objects.{elements_text, later_text, list_of, next_text, whole};
ghost use Rattle.md_report.specs.AsJson.WholeArray.StandingLists.{apart_to, bad_value, holds_role, is_missing_role, is_held, missing_to, standing_fields};

use crate::as_json::one_image::badblocks_object::run_elements;
use crate::as_json::values::{chosen_number, comma_if, next_key, stands_before};
use md_array::Mirror;
use md_assembly::MemberState;
use md_badblocks::Run;
use md_device::Device;
use md_notices::is_parted;
use md_streams::{Sink, SinkFault};

/// The roles that no member has, the members that were used without those in sync, and the sectors that each member lists as bad.
pub(crate) fn standing_lists<S: Sink, D: Device + Drop>(
    out: &mut S,
    mirror: &Mirror<D>,
) -> Result<(), SinkFault>
    ensures { PutsOrFails S.contents S.failed out.old out.new
        (later_text (standing_fields mirror.now.array)) result }
{
    missing_roles(out, mirror)?;
    used_apart(out, mirror)?;
    bad_sectors(out, mirror)?;
    Ok(())
}

fn missing_roles<S: Sink, D: Device + Drop>(
    out: &mut S,
    mirror: &Mirror<D>,
) -> Result<(), SinkFault>
    ensures { PutsOrFails S.contents S.failed out.old out.new
        (next_text (codes "missing_roles")
        (compact_text (list_of whole (missing_to mirror.now.array.members mirror.now.array.shared.raid_disks)))) result }
{
    next_key(out, "missing_roles")?;
    out.put(b"[")?;
    missing_elements(out, mirror, mirror.shared().raid_disks)?;
    out.put(b"]")?;
    Ok(())
}

fn missing_elements<S: Sink, D: Device + Drop>(
    out: &mut S,
    mirror: &Mirror<D>,
    roles: u32,
) -> Result<(), SinkFault>
    ensures { PutsOrFails S.contents S.failed out.old out.new
        (elements_text whole false (missing_to mirror.now.array.members roles)) result }
{
    let mut later = false;
    for role in 0..roles {
        let missing = is_missing_role(mirror, role);
        chosen_number(out, later, missing, role as usize)?;
        later = stands_before(later, missing);
    }
    Ok(())
}

fn is_missing_role<D: Device + Drop>(mirror: &Mirror<D>, role: u32) -> bool
    ensures { result ≡ is_missing_role mirror.now.array.members role }
{
    !is_held(mirror, role)
}

// Whether a member has the role.
fn is_held<D: Device + Drop>(mirror: &Mirror<D>, role: u32) -> bool
    ensures { result ≡ is_held mirror.now.array.members role }
{
    for k in 0..mirror.members() {
        if holds_role(mirror.state(k), role) {
            return true;
        }
    }
    false
}

fn holds_role(state: MemberState, role: u32) -> bool
    ensures { result ≡ holds_role role state }
{
    match state {
        MemberState::InSync(own) | MemberState::Recovering(own) => u32::from(own) == role,
        MemberState::Stale(_) | MemberState::Spare | MemberState::Faulty => false,
    }
}

fn used_apart<S: Sink, D: Device + Drop>(out: &mut S, mirror: &Mirror<D>) -> Result<(), SinkFault>
    ensures { PutsOrFails S.contents S.failed out.old out.new
        (next_text (codes "used_apart")
        (compact_text (list_of whole (apart_to mirror.now.array.members (length mirror.now.array.members))))) result }
{
    next_key(out, "used_apart")?;
    out.put(b"[")?;
    apart_elements(out, mirror)?;
    out.put(b"]")?;
    Ok(())
}

fn apart_elements<S: Sink, D: Device + Drop>(
    out: &mut S,
    mirror: &Mirror<D>,
) -> Result<(), SinkFault>
    ensures { PutsOrFails S.contents S.failed out.old out.new
        (elements_text whole false
        (apart_to mirror.now.array.members (length mirror.now.array.members))) result }
{
    let mut later = false;
    for k in 0..mirror.members() {
        let apart = is_apart(mirror, k);
        chosen_number(out, later, apart, k)?;
        later = stands_before(later, apart);
    }
    Ok(())
}

fn is_apart<D: Device + Drop>(mirror: &Mirror<D>, k: usize) -> bool
    requires { k < length mirror.now.array.members }
    ensures { result ≡ is_parted_at mirror.now.array.members k }
{
    is_parted(mirror, k)
}

/// What each member lists as bad.
pub(crate) fn bad_sectors<S: Sink, D: Device + Drop>(
    out: &mut S,
    mirror: &Mirror<D>,
) -> Result<(), SinkFault>
    ensures { PutsOrFails S.contents S.failed out.old out.new
        (next_text (codes "bad_sectors") (compact_text (list_of bad_value mirror.now.array.members))) result }
{
    next_key(out, "bad_sectors")?;
    out.put(b"[")?;
    bad_elements(out, mirror)?;
    out.put(b"]")?;
    Ok(())
}

fn bad_elements<S: Sink, D: Device + Drop>(out: &mut S, mirror: &Mirror<D>) -> Result<(), SinkFault>
    ensures { PutsOrFails S.contents S.failed out.old out.new
        (elements_text bad_value false mirror.now.array.members) result }
{
    for k in 0..mirror.members() {
        bad_element(out, k > 0, mirror.bad(k).runs())?;
    }
    Ok(())
}

#[tactic(auto, using(md_streams::proofs::Puts::puts_then))]
fn bad_element<S: Sink>(out: &mut S, later: bool, runs: &[Run]) -> Result<(), SinkFault>
    ensures { PutsOrFails S.contents S.failed out.old out.new
        (comma_if later ++ compact_text (list_of run_object runs.now)) result }
{
    out.put(comma_if(later))?;
    bad_runs(out, runs)?;
    Ok(())
}

fn bad_runs<S: Sink>(out: &mut S, runs: &[Run]) -> Result<(), SinkFault>
    ensures { PutsOrFails S.contents S.failed out.old out.new
        (compact_text (list_of run_object runs.now)) result }
{
    out.put(b"[")?;
    run_elements(out, runs)?;
    out.put(b"]")?;
    Ok(())
}
