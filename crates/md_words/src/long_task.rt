// What takes long.

/// What a command does that takes long, so that a terminal is shown its progress.
#[derive(Clone, Copy)]
pub enum LongTask {
    /// So many sectors of the array are read, or all up to its end.
    Read(Option<u64>),
    /// Marked chunks are copied.
    Resync,
    /// Chunks are copied to a member that lacks them.
    Rebuild,
    /// Members are compared.
    Check,
    /// The input is written to the array.
    Write,
}
