// How many chunks are planned, and from which sources.

/// The chunks that some source has, by number, and all their sources.
#[derive(Clone, Copy)]
pub(crate) struct Totals {
    pub chunks: u32,
    pub sources: u32,
}

impl Totals {
    // Adds a chunk with this mask.
    pub(crate) fn add(&mut self, mask: u32) {
        self.chunks = self.chunks.saturating_add(1);
        self.sources |= mask;
    }

    // What each source would hold if all held as much, rounded up.
    pub(crate) fn share(&self) -> u32 {
        self.chunks.div_ceil(self.sources.count_ones().max(1))
    }
}
