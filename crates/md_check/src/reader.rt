// A member's device with what is read of it in a window.

use md_badblocks::BadSet;

/// A member's device, and what its worker reads.
#[derive(Drop)]
pub(crate) struct Reader<D> {
    pub(crate) device: D,
    /// The member's role, where it is in sync. No other is read.
    pub(crate) role: Option<u8>,
    /// The sector of the device at which the member's data start.
    pub(crate) offset: u64,
    /// The sectors of the array that the member lists.
    pub(crate) listed: BadSet,
    /// What was read of the window, where it is not alike; of the first member what was read of the next window. In a
    /// sector that the member lists any bytes may stand.
    pub(crate) bytes: Vec<u8>,
    /// Whether what was read of the window is what was read of the first member.
    pub(crate) alike: bool,
    /// The chunk that could not be read.
    pub(crate) missed: Option<u32>,
}

/// A member in sync, whose data are read on its device.
#[derive(Drop)]
pub(crate) struct MemberData<'a> {
    pub(crate) role: u8,
    /// The sector of the device at which the data start.
    pub(crate) offset: u64,
    /// The sectors of the array that the member lists.
    pub(crate) listed: &'a BadSet,
}
