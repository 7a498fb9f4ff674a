//! Chunks that the pass left are taken sector by sector from the members in sync, in long runs first.
//!
//! Start with `salvage_left` (`left_chunks.rt`), which goes from chunk to chunk, and `SalvagesAll` in
//! `specs/Salvaging/Filling.antt`, what it does. `sector_runs.rt` reads the runs of a chunk, by `read` of `md_read`, and
//! `put_run.rt` writes each to the target.
//!
//! ```
//! let lost = salvage_left(alloc, mirror, target, copied)?;
//! ```

mod left_chunks;
mod put_run;
mod sector_runs;

pub(crate) use left_chunks::salvage_left;
