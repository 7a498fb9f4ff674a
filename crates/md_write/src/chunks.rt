// The sectors of the bitmap that have the bits of chunks.
ghost use Rattle.std.specs.Prelude.{◌≡◌, ◌↔◌, ◌<◌, ◌≤◌, ◌^◌, ℕ};
ghost use Rattle.md_model.specs.Sectors.{block_of};

use md_bitmap::{CHUNKS_OF_HEADER, CHUNKS_OF_SECTOR};

/// The sector of the bitmap that has the bit of a chunk.
pub(crate) fn block_of(chunk: u32) -> u32
    requires { chunk < 2 ^ 31 }
    ensures { result ≡ block_of chunk }
{
    (chunk + CHUNKS_OF_HEADER) / CHUNKS_OF_SECTOR
}

/// Of the chunks from `first` on and below `end`, those whose bits are in this sector of the bitmap: its
/// first, and the one past its last.
pub(crate) fn chunks_in(block: u32, first: u32, end: u32) -> (u32, u32)
    requires { block ≤ 257 }
    ensures within { result.1 ≤ end }
    ensures chunks { (c : ℕ) → ((result.0 ≤ c) × (c < result.1)) ↔ ((first ≤ c) × (c < end) × (block_of c ≡ block)) }
{
    let from = (CHUNKS_OF_SECTOR * block).saturating_sub(CHUNKS_OF_HEADER);
    let to = CHUNKS_OF_SECTOR * block + (CHUNKS_OF_SECTOR - CHUNKS_OF_HEADER);
    (first.max(from), end.min(to))
}
