// Rising lists of runs, and changes to them.
ghost use Rattle.std.specs.Prelude.{◌≡◌, ◌+◌, ◌<◌, ◌≤◌, ◌^◌, ◌++◌, ◌∷◌, length, take, drop, OnOk, OnErr};
ghost use Rattle.std.specs.List.{remove_range, AllByRecursion};
ghost use Rattle.md_badblocks.specs.Runs.{IsCanonical};
ghost use Rattle.md_badblocks.specs.Edits.{IsParted, IsJoined, IsCut};

use crate::run::Run;
use std::alloc::AllocError;

/// The place of the first run that ends at the sector or past it.
pub(crate) fn first_ending_at(runs: &[Run], sector: u64) -> usize
    requires { IsCanonical runs.now }
    ensures bound { result ≤ length runs.now }
    ensures before { AllByRecursion (λ run. run.start + run.len < sector) (take result runs.now) }
    ensures after { AllByRecursion (λ run. sector ≤ run.start + run.len) (drop result runs.now) }
{
    runs.partition_point(|run| run.end() < sector)
}

/// The place of the first run that starts at the sector or past it.
fn first_starting_at(runs: &[Run], sector: u64) -> usize
    requires { IsCanonical runs.now }
    ensures bound { result ≤ length runs.now }
    ensures before { AllByRecursion (λ run. run.start < sector) (take result runs.now) }
    ensures after { AllByRecursion (λ run. sector ≤ run.start) (drop result runs.now) }
{
    runs.partition_point(|run| run.start < sector)
}

/// The places of the runs that end at `low` or past it and start below `high`: the first, and the
/// one after the last.
fn places_between(runs: &[Run], low: u64, high: u64) -> (usize, usize)
    requires { IsCanonical runs.now }
    ensures { IsParted low high runs.now result.0 result.1 }
{
    let from = first_ending_at(runs, low);
    (from, from + first_starting_at(&runs[from..], high))
}

/// Adds the sectors from `start` up to `end`.
pub(crate) fn join(runs: &mut Vec<Run>, start: u64, end: u64) -> Result<(), AllocError>
    requires canonical { IsCanonical runs.old.items }
    requires ordered { start < end }
    requires fits { end ≤ 2 ^ 54 }
    ensures ok { OnOk result (IsJoined start end runs.old.items runs.new.items) }
    ensures err { OnErr result (runs.new.items ≡ runs.old.items) }
{
    let (from, to) = places_between(runs, start, end + 1);
    if from == to {
        let run = Run {
            start,
            len: end - start,
        };
        runs.insert(from, run)?;
        return Ok(());
    }
    let low = runs[from].start.min(start);
    let high = runs[to - 1].end().max(end);
    let run = Run {
        start: low,
        len: high - low,
    };
    replace_by_one(runs, from, to, run);
    Ok(())
}

/// Takes away the sectors from `start` up to `end`.
pub(crate) fn cut(runs: &mut Vec<Run>, start: u64, end: u64) -> Result<(), AllocError>
    requires canonical { IsCanonical runs.old.items }
    requires ordered { start < end }
    requires fits { end ≤ 2 ^ 54 }
    ensures ok { OnOk result (IsCut start end runs.old.items runs.new.items) }
    ensures err { OnErr result (runs.new.items ≡ runs.old.items) }
{
    let (from, to) = places_between(runs, start + 1, end);
    if from == to {
        return Ok(());
    }
    let first = runs[from];
    let last = runs[to - 1].end();
    let left = Run {
        start: first.start,
        len: start.saturating_sub(first.start),
    };
    let right = Run {
        start: end,
        len: last.saturating_sub(end),
    };
    match (left.len > 0, right.len > 0) {
        (false, false) => take_out(runs, from, to),
        (true, false) => replace_by_one(runs, from, to, left),
        (false, true) => replace_by_one(runs, from, to, right),
        (true, true) => replace_by_two(runs, from, to, left, right)?,
    }
    Ok(())
}

/// Takes out the runs from one place up to another.
fn take_out(runs: &mut Vec<Run>, from: usize, to: usize)
    requires ordered { from ≤ to }
    requires within { to ≤ length runs.old.items }
    ensures { runs.new.items ≡ remove_range runs.old.items from to }
{
    drop(runs.drain(from..to));
}

/// Puts one run in the place of those from one place up to another.
fn replace_by_one(runs: &mut Vec<Run>, from: usize, to: usize, run: Run)
    requires ordered { from < to }
    requires within { to ≤ length runs.old.items }
    ensures { runs.new.items ≡ take from runs.old.items ++ run ∷ drop to runs.old.items }
{
    runs[from] = run;
    take_out(runs, from + 1, to);
}

/// Puts two runs in the place of those from one place up to another. It takes memory only where it
/// replaces one.
fn replace_by_two(
    runs: &mut Vec<Run>,
    from: usize,
    to: usize,
    left: Run,
    right: Run,
) -> Result<(), AllocError>
    requires ordered { from < to }
    requires within { to ≤ length runs.old.items }
    ensures ok { OnOk result (runs.new.items ≡ take from runs.old.items ++ left ∷ right ∷ drop to runs.old.items) }
    ensures err { OnErr result (runs.new.items ≡ runs.old.items) }
{
    if to == from + 1 {
        runs.insert(to, right)?;
        runs[from] = left;
    } else {
        runs[from] = left;
        replace_by_one(runs, from + 1, to, right);
    }
    Ok(())
}
