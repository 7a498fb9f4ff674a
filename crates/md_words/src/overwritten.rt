// What a command overwrites.

/// What a command overwrites that perhaps should stay.
#[derive(Clone, Copy)]
pub enum Overwritten {
    /// Nothing of the kind.
    Nothing,
    /// Whatever the images hold of which an array is made.
    Images,
    /// Whatever the image holds that is to join the array.
    NewDevice,
    /// What was written to the image that comes back, and not to the others.
    ReturningDevice,
    /// What was written to the member with this index, and not to the others.
    Member(u32),
}
