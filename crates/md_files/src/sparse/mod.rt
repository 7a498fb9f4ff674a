//! A sink into a new file in which blocks of zeros become holes, and why such a file is not made.
//!
//! Start with `Sparse`, which is given any `HoleFile`.
//!
//! ```
//! let mut out = Sparse::new(file);
//! out.put(&block)?;
//! out.flush()?;
//! ```

mod fault;
mod hole_file;
mod sparse;

pub use fault::{OutputFileFault, output_file_advice};
pub use hole_file::HoleFile;
pub use sparse::Sparse;
