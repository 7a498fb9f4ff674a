// The slots of a plan.
ghost use Rattle.std.specs.Prelude.{◌≡◌};

use std::marker::Model;

/// A chunk, the source that it is read from and the round in which it is read.
#[derive(Clone, Copy, Debug, PartialEq, Eq)]
pub struct Slot {
    pub chunk: u32,
    pub source: u8,
    pub round: u32,
}

/// A list of slots. Contracts see the list.
#[derive(Debug, Drop)]
pub struct Slots {
    list: Vec<Slot>,
}

impl Model for Slots {
    ghost use Rattle.std.specs.Prelude.{List};
    ghost use Rattle.md_cert.specs.declared.slots.Slot.{Slot};

    ghost Value = { List Slot };

    ghost view = { λ s. s.list.items };
}

impl Slots {
    /// The slots of a list. It takes no memory.
    pub fn from_vec(list: Vec<Slot>) -> Slots
        ensures { result ≡ list.items }
    {
        Slots { list }
    }

    /// The list.
    pub fn as_slice(&self) -> &[Slot]
        ensures { result.now ≡ self.now }
    {
        self.list.as_slice()
    }
}
