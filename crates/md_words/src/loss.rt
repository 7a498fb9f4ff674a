// What a rebuild loses for a bad sector.

/// What is listed as bad for sectors that can't be read.
#[derive(Clone, Copy)]
pub enum Loss {
    /// Each chunk of which a member could not read a sector, on that member; and on the one that is rebuilt, each chunk that no
    /// member could give.
    Chunks,
    /// Those sectors alone that no member could give.
    Sectors,
}
