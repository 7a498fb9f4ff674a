//! Sinks between what commands put out and the streams of the system: each passes on all that it takes, in its order, or fails
//! where the one below it does.
//!
//! Start with `Destination`, which is one of two sinks.
//!
//! ```
//! let mut out = CodedJson::new(Destination::Standard(Cleared::new(stdout, &line, true)), is_json);
//! out.put(text.as_bytes())?;
//! out.flush()?;
//! ```

mod cleared;
mod coded_json;
mod coded_text;
mod destination;

pub use cleared::{Cleared, Line};
pub use coded_json::CodedJson;
pub use coded_text::put_coded;
pub use destination::Destination;
