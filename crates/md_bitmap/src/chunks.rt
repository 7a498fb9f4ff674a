// The chunks of an array.
ghost use Rattle.std.specs.Prelude.{◌≡◌, ◌+◌, ◌-◌, ◌*◌, ◌/◌, ◌<◌, ◌≤◌, ◌↔◌, min, ℕ};
ghost use Rattle.std.specs.Int.{div_ceil};
ghost use Rattle.md_bitmap.specs.Sound.{IsSoundHeader, chunk_count};
ghost use Rattle.md_bitmap.specs.Chunks.{IsChunking, InChunk};

use crate::header::SECTOR_BYTES;

/// An array of `size` sectors, cut into chunks of `sectors` sectors. The last may be shorter.
#[derive(Clone, Copy, Debug, PartialEq, Eq)]
pub struct Chunks {
    pub sectors: u32,
    pub size: u64,
    pub ghost chunking: { IsChunking sectors size },
}

impl Chunks {
    /// The chunks of an array of `size` sectors, where the bitmap's chunks have `chunksize` bytes.
    pub fn new(size: u64, chunksize: u32) -> Chunks
        requires { IsSoundHeader size chunksize }
        ensures sectors { result.sectors ≡ chunksize / 512 }
        ensures size { result.size ≡ size }
        ensures count { div_ceil result.size result.sectors ≡ chunk_count size chunksize }
    {
        Chunks {
            sectors: chunksize / SECTOR_BYTES as u32,
            size,
        }
    }

    /// How many chunks there are.
    pub fn count(&self) -> u32
        ensures count { result ≡ div_ceil self.now.size self.now.sectors }
        ensures covers { (sector : ℕ) → sector < self.now.size → sector / self.now.sectors < result }
    {
        self.size.div_ceil(u64::from(self.sectors)) as u32
    }

    /// The chunk of a sector.
    pub fn chunk_of(self, sector: u64) -> u32
        requires { sector < self.size }
        ensures is { result ≡ sector / self.sectors }
        ensures within { result < div_ceil self.size self.sectors }
    {
        (sector / u64::from(self.sectors)) as u32
    }

    /// The first chunk of these sectors, and the one after the last.
    pub fn chunks_of(self, sector: u64, sectors: u64) -> (u32, u32)
        requires some { 0 < sectors }
        requires inside { sector + sectors ≤ self.size }
        ensures first { result.0 ≡ sector / self.sectors }
        ensures end { result.1 ≡ ((sector + sectors) - 1) / self.sectors + 1 }
        ensures within { result.1 ≤ div_ceil self.size self.sectors }
    {
        let last = sector + sectors - 1;
        (self.chunk_of(sector), self.chunk_of(last) + 1)
    }

    /// Where a chunk starts, and how many sectors it has.
    pub fn range(&self, chunk: u32) -> (u64, u64)
        requires { chunk < div_ceil self.now.size self.now.sectors }
        ensures start { result.0 ≡ chunk * self.now.sectors }
        ensures end { result.0 + result.1 ≡ min ((chunk + 1) * self.now.sectors) self.now.size }
        ensures some { 0 < result.1 }
        ensures sectors { (sector : ℕ) → InChunk self.now.sectors self.now.size chunk sector ↔ ((result.0 ≤ sector) × (sector < result.0 + result.1)) }
    {
        let sectors = u64::from(self.sectors);
        let start = u64::from(chunk) * sectors;
        (start, sectors.min(self.size - start))
    }
}
