// What is said of a plan.

/// What is said of a plan and its certificate: the first fault, in this order, or Yes where there is none.
#[derive(Clone, Copy, Debug, PartialEq, Eq)]
pub enum Verdict {
    /// The plan has as few rounds as any.
    Yes,
    /// The chunks of the plan or of the certificate don't rise.
    NotRising,
    /// The chunk is planned from a source that may not give it, or is none of the table's.
    Forbidden(u32),
    /// Some source may give the chunk, and the plan doesn't have it.
    Uncovered(u32),
    /// The source is to give two chunks in the round.
    DoubleSlot(u8, u32),
    /// The chunk is planned for a round that the plan doesn't have.
    RoundTooLate(u32),
    /// The certificate doesn't show that one round less is too few.
    NotShort,
}
