// Neighbouring runs of a set are united, so that it takes fewer entries of a log.
ghost use Rattle.std.specs.Prelude.{◌≡◌, ◌+◌, ◌*◌, ◌<◌, ◌≤◌, ◌⊎◌, ℕ, IfOk, false, true};
ghost use Rattle.md_badblocks.specs.Runs.{IsBad};
ghost use Rattle.md_copy.specs.Salvaging.United.{IsUnited, Parts, Unites};

use md_badblocks::BadSet;
use std::alloc::{AllocError, Global};

// An entry of a log names at most so many sectors.
const ENTRY_SECTORS: u64 = 512;

/// The set with the sectors between two of its runs, where fewer than `gap` lie between, or just as many and the second
/// begins before `to`; none of these is one of the others; and the second begins in the entry in which the first ends, so
/// that it saves one. It takes the fewest entries that there can be so.
pub(crate) fn unite_runs(
    alloc: Global,
    set: &BadSet,
    others: &BadSet,
    gap: u64,
    to: u64,
) -> Result<BadSet, AllocError>
    requires { (s : ℕ) → IsBad set.now s → IsBad others.now s → ⊥ }
    ensures { IfOk result (IsUnited gap to set.now others.now) }
{
    let mut all = BadSet::new(alloc);
    // The run that is made, and where its last entry begins. There is none yet where it ends at 0.
    let mut first = 0;
    let mut entry = 0;
    let mut end = 0;
    for run in set.runs() {
        if !unites(others, entry, end, run.start, gap, to) {
            all.add(first, end - first)?;
            first = run.start;
            entry = run.start;
        }
        end = run.end();
        entry = last_entry(entry, end);
    }
    all.add(first, end - first)?;
    Ok(all)
}

// Whether a run is united with the one before it, which ends here, and whose last entry begins here.
fn unites(others: &BadSet, entry: u64, end: u64, start: u64, gap: u64, to: u64) -> bool
    requires ordered { end ≤ start }
    requires within { entry ≤ start }
    ensures unites { result ≡ true → Unites others.now entry end start gap to }
    ensures parts { result ≡ false → Parts others.now entry end start gap to }
{
    if end == 0 {
        return false;
    }
    if start - entry >= ENTRY_SECTORS {
        return false;
    }
    if !is_narrow(start - end, start, gap, to) {
        return false;
    }
    !others.meets(end, start - end)
}

// Whether a gap of so many sectors before this one is closed.
fn is_narrow(sectors: u64, after: u64, gap: u64, to: u64) -> bool
    ensures narrow { result ≡ true → (sectors < gap) ⊎ ((sectors ≡ gap) × (after < to)) }
    ensures wide { result ≡ false → (gap ≤ sectors) × (sectors ≡ gap → to ≤ after) }
{
    sectors < gap || sectors == gap && after < to
}

// Where the last entry begins of a run that ends here, of which one begins here.
fn last_entry(entry: u64, end: u64) -> u64
    requires { entry < end }
    ensures { (k : ℕ) × (result ≡ entry + 512 * k) × (result < end) × (end ≤ result + 512) }
{
    entry + (end - 1 - entry) / ENTRY_SECTORS * ENTRY_SECTORS
}
