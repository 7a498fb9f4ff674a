// Sectors of an array that no member in sync gives, by their lists.
ghost use Rattle.std.specs.Prelude.{◌≡◌, ◌+◌, ◌^◌, ◌≤◌, ◌<◌, ◌&&◌, ℕ, None, drop, false, length, take, true};
ghost use Rattle.std.specs.List.{AllByRecursion, list_all};
ghost use Rattle.md_badblocks.specs.Runs.{IsCanonical};
ghost use Rattle.md_kept_members.specs.SectorLists.{in_runs};
ghost use Rattle.md_notices.specs.LostSectors.{is_lost, lists_if_in_sync, lost_in};

use md_array::Mirror;
use md_badblocks::{BadSet, Run};
use md_device::Device;

/// How many sectors of an array all members in sync list as bad, and the first of them.
#[derive(Clone, Copy)]
pub struct Lost {
    pub count: u64,
    pub first: Option<u64>,
}

impl Lost {
    /// None is lost.
    pub fn none() -> Lost
        ensures { result ≡ record { count = 0; first = None } }
    {
        Lost {
            count: 0,
            first: None,
        }
    }
}

/// How many sectors of the array all members in sync list as bad: none of them gives these. It takes no memory.
pub fn find_lost<D: Device + Drop>(mirror: &Mirror<D>) -> Lost
    ensures { result ≡ lost_in mirror.now.array }
{
    let size = mirror.chunks().size;
    let mut lost = Lost::none();
    let mut at = 0;
    while at < size {
        let stretch = stretch_at(mirror, at, size);
        if stretch.0 {
            lost.count += stretch.1 - at;
            lost.first = lost.first.or(Some(at));
        }
        at = stretch.1;
    }
    lost
}

// From this sector of the array up to which other one, and no further than `to`, either each is lost or none; and whether they are.
fn stretch_at<D: Device + Drop>(mirror: &Mirror<D>, at: u64, to: u64) -> (bool, u64)
    requires { at < to }
    ensures some { at < result.1 }
    ensures within { result.1 ≤ to }
    ensures alike { (s : ℕ) → at ≤ s → s < result.1 → is_lost mirror.now.array.members s ≡ result.0 }
{
    let mut stretch = (true, to);
    for k in 0..mirror.members() {
        stretch = stretch_with(mirror, k, at, stretch);
    }
    stretch
}

// How far the stretch goes once member k is counted too.
fn stretch_with<D: Device + Drop>(
    mirror: &Mirror<D>,
    k: usize,
    at: u64,
    before: (bool, u64),
) -> (bool, u64)
    requires within { k < length mirror.now.array.members }
    requires some { at < before.1 }
    ensures some { at < result.1 }
    ensures within { result.1 ≤ before.1 }
    ensures alike { (s : ℕ) → at ≤ s → s < result.1
        → list_all (lists_if_in_sync s) (take k mirror.now.array.members) ≡ before.0
        → list_all (lists_if_in_sync s) (take (k + 1) mirror.now.array.members) ≡ result.0 }
{
    if mirror.state(k).is_in_sync() {
        let offset = mirror.own(k).data_offset;
        let own = stretch_in(mirror.bad(k), offset, at, before.1);
        (both(before.0, own.0), own.1)
    } else {
        before
    }
}

fn both(one: bool, other: bool) -> bool
    ensures { result ≡ (one && other) }
{
    one && other
}

// From this sector up to which other one, and no further than `to`, a member whose data begin at the offset lists either each sector or
// none; and which of the two it is.
fn stretch_in(bad: &BadSet, offset: u64, at: u64, to: u64) -> (bool, u64)
    requires { at < to }
    ensures some { at < result.1 }
    ensures within { result.1 ≤ to }
    ensures alike { (s : ℕ) → at ≤ s → s < result.1 → in_runs bad.now (offset + s) ≡ result.0 }
{
    let sector = offset.saturating_add(at);
    let runs = bad.runs();
    let place = first_ending_at(runs, sector.saturating_add(1));
    match runs.get(place) {
        Some(run) => stretch_by(run, offset, at, to),
        None => (false, to),
    }
}

// How far the stretch goes by this run of a member's list, which ends after the sector; none lies between them.
fn stretch_by(run: &Run, offset: u64, at: u64, to: u64) -> (bool, u64)
    requires some { at < to }
    requires ends { offset + at < run.now.start + run.now.len }
    requires fits { run.now.start + run.now.len ≤ 2 ^ 54 }
    ensures some { at < result.1 }
    ensures within { result.1 ≤ to }
    ensures inside { result.0 ≡ true →
        (run.now.start ≤ offset + at) × (offset + result.1 ≤ run.now.start + run.now.len) }
    ensures outside { result.0 ≡ false → offset + result.1 ≤ run.now.start }
{
    if run.start <= offset + at {
        (true, to.min(run.end() - offset))
    } else {
        (false, to.min(run.start - offset))
    }
}

// The place of the first run that ends at the sector or past it.
fn first_ending_at(runs: &[Run], sector: u64) -> usize
    requires { IsCanonical runs.now }
    ensures bound { result ≤ length runs.now }
    ensures before { AllByRecursion (λ run. run.start + run.len < sector) (take result runs.now) }
    ensures after { AllByRecursion (λ run. sector ≤ run.start + run.len) (drop result runs.now) }
{
    runs.partition_point(|run| run.end() < sector)
}
