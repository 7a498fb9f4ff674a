//! Theorems about rebuilds: a rebuild in the life of a mirror. There is no program code: the functions of `laws`
//! have empty bodies, and their contracts are the theorems.
//!
//! Start with `laws::rebuilt_in_life`, and `RebuildsContent` in `specs/Rebuilds/RebuiltInLife.antt`: what the member
//! holds after this call, wherever the life of the mirror had come to.
//!
//! ```
//! let rebuilt = rebuild(rt, alloc, &mut mirror, 1, &gate)?;
//! ```

pub mod laws;
