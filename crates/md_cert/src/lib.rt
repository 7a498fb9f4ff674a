//! Tables of chunks with the sources that may give each of them, plans that say when each chunk is read from
//! where, and a checker that says whether a plan has as few rounds as any.
//!
//! Start with `check`, and `Verdict`, what it says. That a plan with a certificate has as few rounds as any
//! is a law, `laws::certified_is_least`. Plans are made in `md_plan`.
//!
//! ```
//! let mut lent = vec![in alloc; 0u32; plan.rounds as usize]?;
//! let verdict = check(&table, &plan, &certificate, &mut lent);
//! let is_least = verdict == Verdict::Yes;
//! ```
#![tactic(auto)]

mod checker;
mod chunk_list;
mod coverage;
pub mod laws;
mod no_memory;
mod plan;
mod planned;
mod rising;
mod rounds;
mod seek;
mod short_set;
mod slots;
mod sources;
mod table;
mod verdict;

pub use checker::check;
pub use chunk_list::ChunkList;
pub use no_memory::NoMemory;
pub use plan::{Certificate, Plan};
pub use planned::Planned;
pub use slots::{Slot, Slots};
pub use sources::has_source;
pub use table::{Row, Table};
pub use verdict::Verdict;
