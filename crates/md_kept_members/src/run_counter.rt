// The entries that a list takes, counted run by run.
ghost use Rattle.std.specs.Prelude.{◌≡◌, ◌+◌, ◌-◌, ◌/◌, ◌^◌, ◌<◌, ◌≤◌, List};

/// The most sectors that one entry of the log names.
const ENTRY_SECTORS: u64 = 512;

/// What the sectors that were gone through take: the runs at whose end it came so many entries, and the
/// last, which may go on, is from `start` up to `end`.
#[derive(Clone, Copy)]
pub(crate) struct RunCounter {
    pub(crate) entries: u64,
    pub(crate) start: u64,
    pub(crate) end: u64,
    ghost few: { entries ≤ start },
    ghost ordered: { start ≤ end },
    ghost fits: { end ≤ 2 ^ 54 },
}

impl RunCounter {
    ghost use Rattle.md_badblocks.specs.declared.run.Run.{Run};
    ghost use Rattle.md_kept_members.specs.Entries.{HasEachSector, Counts, CountsTo};

    // Nothing was gone through.
    pub(crate) fn new() -> RunCounter
        ensures end { result.end ≡ 0 }
        ensures counts { (list : List Run) → CountsTo 0 list result }
    {
        RunCounter {
            entries: 0,
            start: 0,
            end: 0,
        }
    }

    // How many entries the runs so far take.
    pub(crate) fn total(self) -> u64
        ensures { result ≡ self.entries + (self.end - self.start + 511) / 512 }
    {
        self.entries + (self.end - self.start).div_ceil(ENTRY_SECTORS)
    }

    // All sectors from `start` up to `end` are listed as well.
    pub(crate) fn push(self, start: u64, end: u64) -> RunCounter
        requires after { self.end ≤ start }
        requires ordered { start ≤ end }
        requires fits { end ≤ 2 ^ 54 }
        ensures end { result.end ≡ end }
        ensures counts { Counts (HasEachSector start end) start end self result }
    {
        if self.end < start {
            return RunCounter {
                entries: self.total(),
                start,
                end,
            };
        }
        RunCounter {
            entries: self.entries,
            start: self.start,
            end,
        }
    }
}
