// What is told of a read that fills.
ghost use Rattle.std.specs.Prelude.{ℕ};
ghost use Rattle.md_badblocks.specs.Runs.{IsBad};

use md_badblocks::Run;

/// Is told which sectors are not given, before anything is put out in their place: so whoever keeps what is put out knows of each
/// zero there that it stands for nothing, and of each sector that is another member's.
pub trait FillWatch {
    /// It was told that zeros stand for this sector. Only `lacks` says it, so that a call of which a contract says it has told
    /// the watch.
    ghost misses: { Self → ℕ → Type 0 };

    /// It was told that this sector is another member's, in the same way.
    ghost takes: { Self → ℕ → Type 0 };

    /// These sectors are not given: for the missing ones zeros are put out, for the others what another member has.
    fn lacks(&self, missing: &[Run], others: &[Run])
        ensures missing { (s : ℕ) → IsBad missing.now s → misses self.now s }
        ensures others { (s : ℕ) → IsBad others.now s → takes self.now s };
}
