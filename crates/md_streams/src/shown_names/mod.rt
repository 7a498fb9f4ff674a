//! How a name is shown on standard error: as it stands, unless a terminal would take a part of it for a command, or show
//! it in another place. Such a name is shown as a word of bash.
//!
//! Start with `put_name`.
//!
//! ```
//! put_name(&mut err, "a\u{1b}[2J.img")?;
//! ```

mod hidden;
mod shown_name;

pub use hidden::{hides, is_hidden};
pub use shown_name::put_name;
