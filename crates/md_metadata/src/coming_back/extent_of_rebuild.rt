// How much of a member that comes back is rebuilt.

/// What a member that comes back is rebuilt in.
#[derive(Clone, Copy, Debug, PartialEq, Eq)]
pub enum RebuildExtent {
    /// What was marked since it left, or all of it where something tells that this is not enough.
    Marked,
    /// All of it, whatever its marks say.
    All,
}
