// The calls on a mirror as values.

// A member is named by its index, a device that is in no mirror by its name.
#[derive(Clone, Copy, Debug)]
pub(crate) enum Call {
    // From this sector on so many, which are filled with this byte.
    Write(usize, usize, u8),
    Resync,
    Stop,
    Fail(usize),
    // Stores the superblocks that are due.
    Record,
    Remove(usize),
    ReAdd(usize),
    Add(usize),
    Admit(usize),
    Checkpoint(usize),
    Rebuild(usize),
    Salvage(usize),
}

#[derive(Clone, Copy, Debug, PartialEq, Eq)]
pub(crate) enum Answer {
    Done,
    // By this fault, as a call names it.
    Refused,
    // There is no such member or device, or it is not as the call asks.
    NotCalled,
}
