// Reading sectors of the array in one role.
ghost use Rattle.std.specs.Prelude.{◌≡◌, ◌+◌, ◌*◌, ◌/◌, ◌%◌, ◌<◌, ◌≤◌, ◌↔◌, ℕ, MatchOption, length, true};
ghost use Rattle.std.specs.List.{list_any};
ghost use Rattle.md_kept_members.specs.OwnFields.{is_write_mostly};
ghost use Rattle.md_kept_members.specs.View.{MemberView};
ghost use Rattle.md_assembly.specs.States.{is_in_sync_as};
ghost use Rattle.md_state.specs.Members.{IsMember};
ghost use Rattle.md_state.specs.Steps.CopyData.{Lists};
ghost use Rattle.md_array.specs.Consistency.{IsConsistent};
ghost use Rattle.md_read.specs.Reading.{HasRole, IsInRole, TriesRole, has_all};

use md_array::Mirror;
use md_badblocks::Run;
use md_device::Device;
use md_kept_members::is_write_mostly;

/// What came of reading some sectors in a role.
#[derive(Clone, Copy)]
pub(crate) enum Answer {
    /// The member in sync in the role gave all of them.
    All,
    /// It lists all of them, or there is none, or it is not one of those that are asked.
    Nothing,
    /// A read of them failed. Of fewer it may give some.
    Failed,
    /// It lists some of them, and may give the others.
    Perhaps,
}

/// The member in sync in a role.
pub(crate) fn member_in<D: Device + Drop>(mirror: &Mirror<D>, role: u32) -> Option<usize>
    ensures { MatchOption result (HasRole mirror.now.array role → ⊥) (IsInRole mirror.now.array role) }
{
    for k in 0..mirror.members() {
        if mirror.state(k).is_in_sync_as(role) {
            return Some(k);
        }
    }
    None
}

// Whether member k is write-mostly as those that are asked.
fn is_asked<D: Device + Drop>(mirror: &Mirror<D>, mostly: bool, k: usize) -> bool
    requires within { k < length mirror.now.array.members }
    ensures { (m : MemberView) → IsMember mirror.now.array k m → (result ≡ true) ↔ (is_write_mostly m.superblock ≡ mostly) }
{
    is_write_mostly(mirror.own(k)) == mostly
}

/// Whether member k lists one of these sectors of the array. No list has sectors from 2^54 on.
pub(crate) fn lists_some<D: Device + Drop>(
    mirror: &Mirror<D>,
    k: usize,
    sector: u64,
    sectors: u64,
) -> bool
    requires within { k < length mirror.now.array.members }
    ensures { (m : MemberView) → IsMember mirror.now.array k m → (result ≡ true) ↔ ((s : ℕ) × Lists m s × (sector ≤ s) × (s < sector + sectors)) }
{
    let bad = mirror.bad(k);
    if bad.runs().is_empty() {
        return false;
    }
    let Some(first) = mirror.own(k).data_offset.checked_add(sector) else {
        return false;
    };
    bad.meets(first, sectors)
}

/// Whether member k lists each of these sectors of the array.
pub(crate) fn lists_all<D: Device + Drop>(
    mirror: &Mirror<D>,
    k: usize,
    sector: u64,
    sectors: u64,
) -> bool
    requires within { k < length mirror.now.array.members }
    requires some { 0 < sectors }
    ensures { (m : MemberView) → IsMember mirror.now.array k m → (result ≡ true) ↔ ((s : ℕ) → sector ≤ s → s < sector + sectors → Lists m s) }
{
    let runs = mirror.bad(k).runs();
    let Some(first) = mirror.own(k).data_offset.checked_add(sector) else {
        return false;
    };
    one_has(runs, first, sectors)
}

// Whether one of these runs has all `len` sectors from `start` on.
fn one_has(runs: &[Run], start: u64, len: u64) -> bool
    ensures { result ≡ list_any (has_all start len) runs.now }
{
    runs.iter().any(|run| run.start <= start
        && len <= run.len
        && start - run.start <= run.len - len)
}

/// Reads these sectors of the array from the member in sync in a role, if it lists none of them, and is
/// write-mostly as is asked.
pub(crate) fn read_in<D: Device + Drop>(
    mirror: &mut Mirror<D>,
    mostly: bool,
    role: u32,
    sector: u64,
    buf: &mut [u8],
) -> Answer
    requires some { 512 ≤ length buf.old }
    requires whole { length buf.old % 512 ≡ 0 }
    requires inside { sector + length buf.old / 512 ≤ mirror.old.array.chunks.size }
    requires sound { IsConsistent mirror.old }
    ensures { TriesRole mostly role sector buf.old buf.new mirror.old mirror.new result }
{
    let sectors = buf.len() as u64 / 512;
    let Some(k) = member_in(mirror, role) else {
        return Answer::Nothing;
    };
    if !is_asked(mirror, mostly, k) {
        return Answer::Nothing;
    }
    if lists_some(mirror, k, sector, sectors) {
        if lists_all(mirror, k, sector, sectors) {
            return Answer::Nothing;
        }
        return Answer::Perhaps;
    }
    match mirror.read_data(k, sector, buf) {
        Ok(()) => Answer::All,
        Err(_) => Answer::Failed,
    }
}
