// Who is told of a read.
ghost use Rattle.std.specs.Prelude.{ℕ};

use crate::fill_watch::FillWatch;
use crate::watch::Watch;

/// Is told of a read too, so that it can show the read's progress and the sectors that the read does not get.
pub trait ReadWatch: Watch + FillWatch {
    /// It was told that so many sectors of the array are to be read. Only `begins_read` says it, so that a call of which a
    /// contract says it has told the watch.
    ghost reads: { Self → ℕ → Type 0 };

    /// So many sectors of the array are to be read: those that are asked for, or all up to its end.
    fn begins_read(&self, sectors: u64)
        ensures { reads self.now sectors };
}
