//! Where a read goes on, or begins so that it can.
//!
//! Start with `resumed_of` in `place.rt`: it opens the file and the map, or makes them. `ResumedFile` is the file that is written from
//! there, and `WholePuts` the sink over it.
//!
//! ```
//! let Resumed { file, stands, gaps } = place.resume(purpose)?;
//! let mut out = WholePuts::new(Sparse::new(file));
//! ```

mod names;
mod place;
mod refusal;
mod resumed_file;
mod whole_puts;

pub use names::Names;
pub use place::{Resumed, identity_of, resumed_of};
pub use refusal::ResumeRefusal;
pub use resumed_file::{KeepFault, ResumedFile};
pub use whole_puts::WholePuts;
