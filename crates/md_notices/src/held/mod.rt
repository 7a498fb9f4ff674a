//! What a device holds before `create` or `add` overwrites it, for the warning: the superblock of a member, or else the
//! first signature that is found, as that of a file system. Devices are only read.
//!
//! Start with `held_on`.
//!
//! ```
//! let held = held_on(alloc, &mut device);
//! let asks = held.needs_telling();
//! ```

mod held;
mod looking;

pub use held::{Held, held_on};
pub use looking::held_on_each;
