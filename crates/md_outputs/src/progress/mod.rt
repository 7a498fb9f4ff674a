//! How far a command is: what is counted, and the line that a terminal is shown of it.
//!
//! Start with `Progress` in `shown.rt`, which draws the line. Of each long task it has what is counted there: of a rebuild `copying.rt`, of a
//! check `comparing.rt`, of a write `write_progress.rt`, of a read `read_length.rt`. `pace.rt` has how fast a task goes.
//! `refused_requests.rt` and `silence.rt` are of a client that is served.
//!
//! ```
//! let progress = Progress::new(rt, task, messages, is_verbose);
//! let device = Watched::new(device, &progress);
//! ```

mod comparing;
mod copying;
mod pace;
mod read_length;
mod refused_requests;
mod shown;
mod silence;
mod write_progress;

pub use shown::Progress;
