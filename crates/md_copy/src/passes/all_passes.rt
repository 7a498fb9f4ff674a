// Passes are made until no slot fails.
ghost use Rattle.std.specs.Prelude.{◌≡◌, ◌^◌, ◌<◌, ◌≤◌, All, IfErr, IfOk, MatchResult, false, length};
ghost use Rattle.std.specs.Int.{div_ceil};
ghost use Rattle.md_array.specs.Consistency.{IsConsistent};
ghost use Rattle.md_cert.specs.Plans.{SlotsRise};
ghost use Rattle.md_kept_members.specs.View.{MemberView};
ghost use Rattle.md_pass.specs.Copied.{failed_slots};
ghost use Rattle.md_copy.specs.PassLaws.Listed.{ServesAs};
ghost use Rattle.md_state.specs.Members.{IsMember};
ghost use Rattle.md_copy.specs.Table.Orphans.{IsSetOf};
ghost use Rattle.md_copy.specs.Passes.Held.{AreHeld};
ghost use Rattle.md_copy.specs.Ending.Leaving.{MayRecordAtEnd};
ghost use Rattle.md_copy.specs.Passes.Passing.{FailsOne, GoesOnWith, IsTableFor, MakesOne, PassesAll, PassesFail, FailsBetween};
ghost use Rattle.md_copy.specs.Readying.Ready.{IsReadyToCopy};
ghost use Rattle.md_copy.specs.Told.{IsToldOfPlans, IsToldOfSlots};

use crate::beginning::{RebuildFault, table};
use crate::passes::list_failed::{list_failed, store_lists};
use crate::passes::next_table::table_of_failed;
use crate::passes::stretches::{copy_stretches, stretch_rounds};
use md_array::Mirror;
use md_bitmap::Marks;
use md_cert::{Plan, Planned, Slot, Table};
use md_device::Device;
use md_pass::Workers;
use md_plan::plan;
use md_streams::Gate;
use std::alloc::Global;
use std::sync::Wait;
use std::thread::Threads;

/// A pass that was made.
#[derive(Drop)]
pub(crate) struct Passed {
    /// Its plan.
    pub(crate) planned: Planned,
    /// How many slots of it failed.
    pub(crate) failed: usize,
}

/// Makes passes over what the target lacks: each but the first over what failed in the one before, which is listed
/// as bad on its sources meanwhile. After each stretch of one it is recorded how far the target is rebuilt. The plans are
/// answered, in their order, and `copied` gets a mark for each chunk that was copied.
pub(crate) fn copy_passes<D: Device + Drop + Send, G: Gate + Sync, R: Threads + Wait + Sync>(
    rt: &R,
    alloc: Global,
    mirror: &mut Mirror<D>,
    target: usize,
    gate: &G,
    copied: &mut Marks,
) -> Result<Vec<Planned>, RebuildFault>
    requires within { target < length mirror.old.array.members }
    requires ready { IsReadyToCopy target mirror.old }
    requires none { IsSetOf mirror.old.array (λ c. false) copied.old }
    ensures gives { (m : MemberView) → IsMember mirror.old.array target m → MatchResult result
        (λ plans. PassesAll target m copied.old copied.new mirror.old mirror.new plans.items)
        (PassesFail target m copied.old copied.new mirror.old mirror.new) }
    ensures told { IfOk result (λ plans. IsToldOfPlans G.Gate gate.now plans.items) }
    ensures leaves { IfErr result (MayRecordAtEnd target copied.new mirror.new) }
    ensures sound { IsConsistent mirror.new }
{
    let mut plans = Vec::new(alloc);
    let mut rows = table(alloc, mirror, target)?;
    // Each pass but the last takes a chunk from what a member may give: there is at most one more of them than
    // chunks, counted for each member in sync.
    for _pass in 0..u64::MAX {
        if plans.reserve(1).is_err() {
            return Err(RebuildFault::NoMemory);
        }
        let passed = make_pass(rt, alloc, mirror, target, gate, &rows, copied)?;
        if passed.failed == 0 {
            plans.push_reserved(passed.planned);
            return Ok(plans);
        }
        rows = list_and_go_on(alloc, mirror, target, &passed.planned.plan, copied)?;
        plans.push_reserved(passed.planned);
    }
    unreachable!()
}

/// One pass over the chunks of a table: it is planned, and made in stretches.
pub(crate) fn make_pass<D: Device + Drop + Send, G: Gate + Sync, R: Threads + Wait + Sync>(
    rt: &R,
    alloc: Global,
    mirror: &mut Mirror<D>,
    target: usize,
    gate: &G,
    rows: &Table,
    copied: &mut Marks,
) -> Result<Passed, RebuildFault>
    requires within { target < length mirror.old.array.members }
    requires ready { IsReadyToCopy target mirror.old }
    requires held { AreHeld mirror.old target copied.old }
    requires table { IsTableFor mirror.old target copied.old rows.now }
    requires few { length rows.now ≤ 2 ^ 20 }
    ensures gives { MatchResult result (MakesOne target rows.now copied.old copied.new mirror.old mirror.new)
        (FailsOne target rows.now copied.old copied.new mirror.old mirror.new) }
    ensures told { IfOk result (λ passed. IsToldOfSlots G.Gate gate.now passed.planned.plan.slots) }
    ensures sound { IsConsistent mirror.new }
{
    let planned = plan(alloc, rows)?;
    let step = stretch_rounds(mirror.chunks(), planned.plan.rounds);
    let workers = Workers {
        rt: &*rt,
        alloc,
        gate: &*gate,
    };
    copy_stretches(&workers, mirror, target, &planned.plan, step, copied)?;
    let failed = failed_count(planned.plan.slots.as_slice(), copied);
    Ok(Passed { planned, failed })
}

// How many of these slots failed: those whose chunks were not copied.
fn failed_count(slots: &[Slot], copied: &Marks) -> usize
    requires { All (λ slot. slot.chunk < copied.now.chunks) slots.now }
    ensures { result ≡ length (failed_slots slots.now copied.now) }
{
    slots
        .iter()
        .filter(|slot| !copied.is_marked(slot.chunk))
        .count()
}

/// Lists what failed in a pass, stores the lists, and answers the next table.
fn list_and_go_on<D: Device + Drop>(
    alloc: Global,
    mirror: &mut Mirror<D>,
    target: usize,
    plan: &Plan,
    copied: &Marks,
) -> Result<Table, RebuildFault>
    requires within { target < length mirror.old.array.members }
    requires ready { IsReadyToCopy target mirror.old }
    requires served { All (λ slot. ServesAs mirror.old.array slot.chunk slot.source) plan.now.slots }
    requires rising { SlotsRise plan.now.slots }
    requires marks { copied.now.chunks ≡ div_ceil mirror.old.array.chunks.size mirror.old.array.chunks.sectors }
    ensures gives { MatchResult result (GoesOnWith (failed_slots plan.now.slots copied.now) mirror.old mirror.new)
        (FailsBetween (failed_slots plan.now.slots copied.now) mirror.old mirror.new) }
{
    list_failed(alloc, mirror, plan, copied)?;
    store_lists(mirror, plan, copied)?;
    table_of_failed(alloc, mirror, plan, copied)
}
