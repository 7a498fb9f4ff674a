//! What a mirror keeps in memory of the array, without its devices, and what each step asks of it and changes
//! in it.
//!
//! Start with `Array`, and with the methods of one step under `steps/`: what it asks and changes has a
//! definition of its name in `specs/Steps/`. The writes of a step are in `md_array`.
//!
//! ```
//! let mut array = Array::remember(alloc, infos, assembly)?;
//! let pending = array.begin(8, &[0xa5; 512])?;
//! let marked = array.marks.count();
//! ```
#![tactic(auto)]

mod array;
mod data_area;
mod steps;

pub use array::Array;
pub use data_area::{put_on, sector_on};
