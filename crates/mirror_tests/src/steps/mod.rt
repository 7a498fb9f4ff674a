//! Tests of a mirror's steps and members: mirrors that are opened, the steps by which a request is written (in every order,
//! with failing writes, and on a lone member), and the calls by which members fail, leave, come back, come in, are
//! admitted and list what can't be read. Most are rows of steps with their answers, and one function plays the rows.
//!
//! Start with `Chapter` and `play` (`play.rt`), and with `Step` and `Answer` (`step.rt`).
//!
//! ```
//! const LEAVES: [Worked; 2] = [
//!     (Step::Fail(1), Answer::Done),
//!     (Step::Remove(1), Answer::Done),
//! ];
//! ```
mod every_order;
mod expected;
mod images;
mod members;
mod openings;
mod play;
mod run;
mod shown;
mod step;
mod writes;
