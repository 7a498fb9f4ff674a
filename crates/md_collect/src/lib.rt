//! What a rebuild's reads report, the collector that writes it to the target, and what a comparison of members finds.
//!
//! Start with `Collector`: it takes each chunk of a plan once, from the source that the plan names, and
//! refuses all else. `read_chunk` makes the report of one read.
//!
//! `workers/`: what reads members side by side.
//!
//! ```
//! let mut collector = Collector::new(alloc, &plan, chunks, offset)?;
//! let report = read_chunk(alloc, &mut source, role, source_offset, chunks, 1)?;
//! collector.take(&mut target, report)?;
//! ```
#![tactic(auto)]

mod chunk_read;
mod collector;
mod found;
pub mod laws;
mod planned;
mod refusal;
mod report;
mod workers;

pub use chunk_read::{read_chunk, read_chunk_into};
pub use collector::Collector;
pub use found::{Comparison, Pair};
pub use refusal::Refusal;
pub use report::Report;
pub use workers::{Board, Queue, Reports, Share, batch_of, turn};
