//! What a terminal's second line says of a command that is refused: the image that it is about, and what to do.
//!
//! Start with `advise`, which writes that line, and nothing else; `advice_words` holds it in memory. `advice.rt` has the words for each fault, and
//! `advice_line.rt` finds the image that a fault is about.
//!
//! ```
//! advise(&fault, &["sda.img", "sdb.img"], command, &mut err);
//! ```

mod advice;
mod advice_line;
mod geometry_advice;

pub use advice_line::{advice_words, advise};
