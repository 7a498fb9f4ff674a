//! The write-intent bitmap of an md array: its header, its chunks, and which of them are marked.
//!
//! Start with `Marks`, the set of marked chunks, and `Chunks`, by which a sector has a chunk. `BitmapHeader`
//! is what stands before the marks on a device.
//!
//! ```
//! let chunks = Chunks::new(superblock.size, header.chunksize);
//! let mut marks = Marks::none(alloc, chunks.count())?;
//! let (first, end) = chunks.chunks_of(8, 16);
//! marks.mark_range(first, end);
//! ```
#![tactic(auto)]

mod chunks;
mod fault;
mod header;
mod marks;
mod runs;
mod words;

pub use chunks::Chunks;
pub use fault::BitmapFault;
pub use header::{BitmapHeader, HEADER_BYTES, MAX_CHUNKS, has_few_chunks, is_chunk_size};
pub use marks::{BLOCK_BYTES, CHUNKS_OF_HEADER, CHUNKS_OF_SECTOR, Marks, sectors_of_bitmap};
