// A set of bad sectors, seen as its maximal runs.
ghost use Rattle.std.specs.Prelude.{◌≡◌, ◌+◌, ◌^◌, ◌<◌, ◌≤◌, ◌⊎◌, ◌↔◌, ℕ, List, [], IsTrue, IfOk, OnOk, OnErr};
ghost use Rattle.md_badblocks.specs.Runs.{IsBad, IsCanonical, entries_needed};

use crate::editing::{cut, first_ending_at, join};
use crate::run::Run;
use std::alloc::{AllocError, Global};
use std::marker::Model;

/// The first sector that no set has: an entry of the log names sectors in 54 bits.
const LIMIT: u64 = 1 << 54;

/// The most sectors that one entry of the log names.
pub(crate) const ENTRY_SECTORS: u64 = 512;

/// A set of sectors below 2^54, seen by contracts as the rising list of its maximal runs.
#[derive(Debug, Drop)]
pub struct BadSet {
    runs: Vec<Run>,
}

impl Model for BadSet {
    ghost use Rattle.std.specs.Prelude.{List};
    ghost use Rattle.md_badblocks.specs.declared.run.Run.{Run};
    ghost use Rattle.md_badblocks.specs.Runs.{IsCanonical};

    ghost Value = { List Run };

    ghost view = { λ a. a.runs.items };

    ghost invariant = { λ a. IsCanonical a.runs.items };
}

impl BadSet {
    /// The empty set.
    pub fn new(alloc: Global) -> Self
        ensures { result ≡ [] }
    {
        BadSet {
            runs: Vec::new(alloc),
        }
    }

    /// A list of the same sectors.
    pub fn try_clone(&self, alloc: Global) -> Result<BadSet, AllocError>
        ensures canonical { IfOk result IsCanonical }
        ensures same { IfOk result (λ list. (sector : ℕ) → IsBad list sector ↔ IsBad self.now sector) }
    {
        Ok(BadSet {
            runs: Vec::from_slice(alloc, &self.runs)?,
        })
    }

    /// Whether no sector is bad.
    pub fn is_empty(&self) -> bool
        ensures { IsTrue result ↔ (self.now ≡ []) }
    {
        self.runs.is_empty()
    }

    /// The maximal runs, rising.
    pub fn runs(&self) -> &[Run]
        ensures runs { result.now ≡ self.now }
        ensures canonical { IsCanonical self.now }
    {
        self.runs.as_slice()
    }

    /// Whether one of the `len` sectors from `start` on is bad.
    pub fn meets(&self, start: u64, len: u64) -> bool
        ensures { IsTrue result
            ↔ ((sector : ℕ) × IsBad self.now sector × (start ≤ sector) × (sector < start + len)) }
    {
        if len == 0 {
            return false;
        }
        let place = first_ending_at(&self.runs, start.saturating_add(1));
        place < self.runs.len() && self.runs[place].start < start.saturating_add(len)
    }

    /// How many entries the log of the set takes. A run takes no more entries than it has sectors, so
    /// the sum is at most 2^54.
    pub fn entries_needed(&self) -> u64
        ensures { result ≡ entries_needed self.now }
    {
        count_entries(&self.runs)
    }

    /// Adds the `len` sectors from `start` on, but for those from 2^54 on.
    pub fn add(&mut self, start: u64, len: u64) -> Result<(), AllocError>
        ensures ok { OnOk result ((sector : ℕ) → IsBad self.new sector
            ↔ (IsBad self.old sector
            ⊎ ((start ≤ sector) × (sector < start + len) × (sector < 2 ^ 54)))) }
        ensures err { OnErr result (self.new ≡ self.old) }
        ensures canonical { IsCanonical self.new }
    {
        let end = start.saturating_add(len).min(LIMIT);
        if start < end {
            join(&mut self.runs, start, end)?;
        }
        Ok(())
    }

    /// Takes away the `len` sectors from `start` on.
    pub fn remove(&mut self, start: u64, len: u64) -> Result<(), AllocError>
        ensures ok { OnOk result ((sector : ℕ) → IsBad self.new sector
            ↔ (IsBad self.old sector × ((sector < start) ⊎ (start + len ≤ sector)))) }
        ensures err { OnErr result (self.new ≡ self.old) }
        ensures canonical { IsCanonical self.new }
    {
        let end = start.saturating_add(len).min(LIMIT);
        if start < end {
            cut(&mut self.runs, start, end)?;
        }
        Ok(())
    }
}

fn count_entries(runs: &[Run]) -> u64
    requires { entries_needed runs.now < 2 ^ 64 }
    ensures { result ≡ entries_needed runs.now }
{
    runs.iter().map(|run| run.len.div_ceil(ENTRY_SECTORS)).sum()
}
