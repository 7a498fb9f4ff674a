//! The command that serves an array to a client which may write to it too. A degraded array that is not resynced is resynced first,
//! requests are done one after another, of which writes may wait for a flush, and at the end, however it comes, the array is stopped.
//! `md_read_commands` serves arrays that are only read, and why a client is not served is `CommandFault` of `md_commands`.
//!
//! Start with `serve_writable` in `writable.rt`. `ArrayWriter` in `writer.rt` is the array as `md_nbd`'s store of sectors.
//!
//! ```
//! serve_writable(alloc, &mut mirror, &watch, &mut input, &mut out)?;
//! ```
#![tactic(auto)]

pub mod laws;
mod writable;
mod writer;

pub use writable::serve_writable;
