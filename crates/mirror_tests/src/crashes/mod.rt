//! Tests of what a crash leaves: whole calls on a mirror whose devices crash at each write in turn, or at
//! some write of a list of calls that is drawn. What is left is opened again.
//!
//! Start with `each_write.rt`, which plays lists of calls, and `lives.rt`, which draws them; `judging.rt`
//! says what has to be found again.
//!
//! ```
//! const WRITES: [Call; 3] = [Call::Write(8, 2, 2), Call::Write(24, 2, 3), Call::Stop];
//! crash_at_each(rt, alloc, &images, &WRITES, &Content::filled_with(FILLING))?;
//! ```
mod agreeing;
mod calls;
mod choosing;
mod content;
mod dice;
mod each_write;
mod fuses;
mod images;
mod judging;
mod lives;
mod run;
