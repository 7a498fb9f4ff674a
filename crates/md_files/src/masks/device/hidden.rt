// Bytes that contracts alone see.
ghost use Rattle.std.specs.Prelude.{◌≡◌, ℕ, List};

use std::marker::Model;

/// Bytes for contracts. They take no memory, and there are none when the program runs.
#[derive(Drop)]
pub(crate) struct Hidden {
    ghost bytes: { List ℕ },
}

impl Model for Hidden {
    ghost use Rattle.std.specs.Borrow.{ftrue};

    ghost also_owns = { λ _. ftrue };
}

// It owns nothing.
unsafe impl Send for Hidden {}

unsafe impl Sync for Hidden {}

impl Hidden {
    /// Any bytes: those that whoever calls has in mind.
    pub(crate) fn any() -> Hidden
        ghost disk: { List ℕ }
        ensures { result.bytes ≡ disk }
    {
        Hidden {}
    }
}
