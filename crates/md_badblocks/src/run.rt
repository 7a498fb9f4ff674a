// A run of sectors.
ghost use Rattle.std.specs.Prelude.{◌≡◌, ◌+◌, ◌-◌, ◌^◌, min};

/// Sectors in a row: `len` of them, from `start` on.
#[derive(Clone, Copy, Debug, PartialEq, Eq)]
pub struct Run {
    pub start: u64,
    pub len: u64,
}

impl Run {
    /// The sector after the last, or `u64::MAX` where that is less.
    pub fn end(&self) -> u64
        ensures { result ≡ min (self.now.start + self.now.len) (2 ^ 64 - 1) }
    {
        self.start.saturating_add(self.len)
    }
}
