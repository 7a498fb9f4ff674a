//! The passes: each is planned, made in stretches and recorded, and what failed in it is listed before the next.
//!
//! Start with `copy_passes` (`all_passes.rt`), the loop of a rebuild, and `PassesAll` in `specs/Passes/Passing.antt`, what
//! it does. A salvage makes one pass, by `make_pass`. In a pass `stretches.rt` copies stretch by stretch, each by `fill.rt`,
//! which lends the devices to `one_pass.rt`, and takes the sources that `sources.rt` finds. Then `list_failed.rt` lists
//! what could not be read, and `next_table.rt` has what the next pass is planned by.
//!
//! ```
//! let plans = copy_passes(rt, alloc, mirror, target, gate, copied)?;
//! ```

mod all_passes;
mod fill;
mod list_failed;
mod next_table;
mod one_pass;
mod sources;
mod stretches;

pub(crate) use all_passes::{copy_passes, make_pass};
