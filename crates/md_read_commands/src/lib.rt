//! The commands that read an opened array and serve it. A read puts out sectors in pieces, and needs memory for one piece only.
//! A degraded array that is not resynced is resynced first. If no image may be changed, it is read as it would be after a resync.
//! If a sector can't be read, the read ends; or another member's sector or zeros take its place, and the command says which sectors
//! these are. `CommandFault` of `md_refusals` says why a read is refused. `md_commands` has the other commands on an opened array.
//!
//! Start with `read_array` in `reading.rt`: it chooses the way in which the sectors are read (`way.rt`), and puts them out
//! piece by piece (`pieces.rt`; `filling.rt` if sectors are filled, `others.rt` from another member). `serve_array` in `serving.rt`
//! serves them to a client of the NBD protocol (`reader.rt`). `laws` has what holds for everything that is read in this way.
//!
//! ```
//! read_array(alloc, &mut mirror, 8, 16, &mut out)?;
//! let (gaps, done) = read_array_filled(alloc, &mut mirror, 0, 32, true, &watch, &mut out);
//! ```
#![tactic(auto)]

mod buffer;
mod filling;
mod holes;
pub mod laws;
mod noting;
mod others;
mod output;
mod pieces;
mod reader;
mod reading;
mod serving;
mod stand_in;
mod way;

pub use noting::add_all;
pub use reading::{first_gap, has_put_all, read_array, read_array_filled, read_array_readonly};
pub use serving::serve_array;
pub use stand_in::{FrontedDevice, StandIn, front_each, put_stand_in};
