//! Files that the program makes itself: each is written through the descriptor by which it was made.
//!
//! Start with `NewFile`, which gets what a read puts out; `MadeFile` is any such file.
//!
//! ```
//! let file = NewFile::make(rt, "array.img")?;
//! let mut out = Sparse::new(file);
//! ```

mod made_file;
mod new_file;

pub use made_file::MadeFile;
pub(crate) use made_file::sync_folder;
pub use new_file::NewFile;
