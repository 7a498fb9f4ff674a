//! Theorems about the lives of a mirror: the laws over each of them, and a life that is sure to be one. But for
//! `small_life` there is no program code: the functions of `laws` and `whole_calls` have empty bodies, and
//! their contracts are the theorems.
//!
//! Start with `laws::every_run`. The lists of events of which it speaks are in `specs/Runs.antt`, crashes and
//! openings between them in `specs/Lives.antt`. That such lives exist is shown by one that runs, of a lone
//! member:
//!
//! ```
//! let mirror = small_life(alloc, devices, &[7; 512]).ok_or("it is no life")?;
//! ```
#![tactic(auto)]

pub mod laws;
mod lone_life;
pub mod whole_calls;

pub use lone_life::small_life;
