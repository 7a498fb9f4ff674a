//! What a command is given besides its images: where its output goes, where its input comes from, who watches its progress, and who
//! is asked. Also how a name and a number are printed.
//!
//! Start with `Sink` (`sink.rt`), which takes a report, and `Source` (`source.rt`), which gives the bytes of a write. An `Output` is a
//! sink over a writer of std, an `Input` is a source over a reader, and a `Buffered` passes on larger pieces. `Watch` follows a
//! rebuild, a check or a write, with a `Gate` for each read. `ReadWatch` follows a read, and `Gaps` has the sectors that the read did
//! not get. A command asks an `Asker` before it overwrites data that perhaps should stay. `Questions` (`terminal.rt`) has what a
//! terminal shows and asks: an answer is a line of the input (`answer.rt`), and only a yes counts as yes. `put_going_on` says, before
//! a rebuild copies, that it goes on at the place at which an earlier one ended.
//!
//! `shown_names/`: how a name is shown on standard error.
//!
//! ```
//! let mut out = Buffered::new(alloc, Output::new(writer));
//! number_after(&mut out, b"chunks missing: ", 3)?;
//! out.flush()?;
//! ```
#![tactic(auto)]

mod answer;
mod asker;
mod buffered;
mod fill_watch;
mod filling_front;
mod gaps;
mod gate;
mod going_on;
mod messages;
mod numbers;
mod read_watch;
mod shown_names;
mod sink;
mod source;
mod terminal;
mod watch;

pub use asker::Asker;
pub use buffered::Buffered;
pub use fill_watch::FillWatch;
pub use filling_front::fill_front;
pub use gaps::Gaps;
pub use gate::Gate;
pub use going_on::put_going_on;
pub use messages::{Audience, Messages};
pub use numbers::{hex_digit, number_after};
pub use read_watch::ReadWatch;
pub use shown_names::{hides, is_hidden, put_name};
pub use sink::{Output, Sink, SinkFault};
pub use source::{Input, Source, SourceFault};
pub use terminal::Questions;
pub use watch::Watch;
