// Sectors that are not given are noted.
ghost use Rattle.std.specs.Prelude.{◌≡◌, ℕ, IfOk, MatchResult};
ghost use Rattle.md_badblocks.specs.Runs.{IsBad};
ghost use Rattle.md_streams.specs.Gaps.{AreFit, AreFitGaps, HasBoth, HasBothGaps, HasSomeGapsOf, HasSomeOf, IsGap};
ghost use Rattle.md_read_commands.specs.Holes.{gaps_of};

use crate::holes::Holes;
use md_badblocks::{BadSet, Run};
use md_streams::Gaps;
use std::alloc::{AllocError, Global};

/// Adds these sectors to those that are noted, all of them or none. There is no memory for that only where there is one of them.
pub(crate) fn note_all(alloc: Global, noted: &mut Gaps, holes: &Holes) -> Result<(), AllocError>
    requires fit { AreFitGaps (gaps_of holes.now) }
    ensures { MatchResult result
        (λ _. HasBothGaps noted.old (gaps_of holes.now) noted.new)
        (λ _. (noted.new ≡ noted.old) × ((s : ℕ) × IsGap (gaps_of holes.now) s)) }
{
    if holes.is_empty() {
        return Ok(());
    }
    let both = join_gaps(alloc, noted, holes)?;
    *noted = both;
    Ok(())
}

// The sectors of both, each kind for itself.
fn join_gaps(alloc: Global, noted: &Gaps, holes: &Holes) -> Result<Gaps, AllocError>
    requires fit { AreFitGaps (gaps_of holes.now) }
    ensures { IfOk result (λ both. HasBothGaps noted.now (gaps_of holes.now) both) }
{
    Ok(Gaps {
        missing: join_sets(alloc, &noted.missing, &holes.missing)?,
        others: join_sets(alloc, &noted.others, &holes.others)?,
    })
}

/// Adds these sectors to those that are noted. Where there is no memory for that, some are added perhaps, and there is one of them.
pub(crate) fn add_holes(noted: &mut Gaps, holes: &Holes) -> Result<(), AllocError>
    requires fit { AreFitGaps (gaps_of holes.now) }
    ensures { MatchResult result
        (λ _. HasBothGaps noted.old (gaps_of holes.now) noted.new)
        (λ _. HasSomeGapsOf noted.old (gaps_of holes.now) noted.new
        × ((s : ℕ) × IsGap (gaps_of holes.now) s)) }
{
    add_all(&mut noted.missing, &holes.missing)?;
    add_all(&mut noted.others, &holes.others)
}

// The sectors of both sets.
fn join_sets(alloc: Global, one: &BadSet, other: &[Run]) -> Result<BadSet, AllocError>
    requires fit { AreFit other.now }
    ensures { IfOk result (λ both. HasBoth one.now other.now both) }
{
    let mut both = BadSet::new(alloc);
    add_all(&mut both, one.runs())?;
    add_all(&mut both, other)?;
    Ok(both)
}

/// Adds these sectors to a set. If memory runs out, some of them may have been added. Then `more` has at least one sector.
pub fn add_all(set: &mut BadSet, more: &[Run]) -> Result<(), AllocError>
    requires fit { AreFit more.now }
    ensures { MatchResult result
        (λ _. HasBoth set.old more.now set.new)
        (λ _. HasSomeOf set.old more.now set.new × ((s : ℕ) × IsBad more.now s)) }
{
    for run in more {
        set.add(run.start, run.len)?;
    }
    Ok(())
}
