// Which sectors are read and compared.

/// The window that is compared in a turn begins at the sector `from`. Behind it `ahead` sectors more are read of the
/// first member in sync, that of the reader with index `first`.
#[derive(Clone, Copy)]
pub(crate) struct Window {
    pub(crate) first: usize,
    pub(crate) from: u64,
    pub(crate) ahead: u64,
}

/// Sectors of the array: so many from this one on.
#[derive(Clone, Copy)]
pub(crate) struct Part {
    pub(crate) from: u64,
    pub(crate) sectors: u64,
}
