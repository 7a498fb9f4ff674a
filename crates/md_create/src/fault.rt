// Why no array is made.
use thiserror::Error;

/// Why no array is made, in the order in which it is looked for.
#[derive(Clone, Copy, Debug, PartialEq, Eq, Error)]
pub enum CreateFault {
    /// There are not 1 to 32 roles, no device is there, the size is 0, a device has fewer than 2048
    /// sectors and the size, the chunk size or the number of chunks is out of its limits, or the role
    /// that is to be write-mostly has no device.
    #[error("BadGeometry")]
    BadGeometry,
    /// There was no memory.
    #[error("NoMemory")]
    NoMemory,
}
