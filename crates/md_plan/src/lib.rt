//! Plans a rebuild: each missing chunk from one of its sources, in the fewest rounds, with a certificate that
//! shows that fewer are too few.
//!
//! Start with `plan` (`planner.rt`). Chunks with the same sources form a class. The planner counts how many
//! chunks of each class each source holds, moves counts along alternating paths until no source holds more
//! than it must, and gives out chunks and rounds at the end.
//!
//! ```
//! let mut table = Table::new(alloc);
//! table.push(0, 0b11)?;
//! table.push(3, 0b01)?;
//! let planned = plan(alloc, &table)?;
//! let rounds = planned.plan.rounds;
//! ```
#![tactic(auto)]

mod balance;
mod bound;
mod cell;
mod cells_by_source;
mod certify;
mod classes;
mod direct;
mod give_out;
mod level;
mod lightest;
mod place;
mod planner;
mod pull;
mod ranking;
mod reach;
mod ring;
mod route;
mod search;
mod shift;
mod totals;

pub use planner::plan;
