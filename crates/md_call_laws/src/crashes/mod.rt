//! Theorems about crashes and resyncs, beyond those of `md_laws`: members in sync that agree, and writes that
//! halted a mirror. But for `fresh_agreement` there is no program code: the functions of `laws` have empty
//! bodies, and their contracts are the theorems.
//!
//! Start with `laws::members_agree`, and `AgreesAtRest` in `specs/Crashes/Agreement.antt`, which it says of each
//! moment of each life. That what the laws ask can be met is shown by a resync that runs, of a new array:
//!
//! ```
//! let mirror = fresh_agreement(alloc, devices).ok_or("it was refused")?;
//! ```

mod fresh_array;
pub mod laws;

pub use fresh_array::fresh_agreement;
