// What a device is opened for.

/// What a device is opened for.
#[derive(Clone, Copy, Debug, PartialEq, Eq)]
pub enum Access {
    /// To be read alone, under a lock that others who look share. Nothing can be written through such
    /// a device, and closing it is no writer's close, at which udev would look for a member to assemble.
    Look,
    /// To be read and written, under a lock of its own.
    Change,
    /// To be read and written where that may be; else to be read alone. It may not be where writing is
    /// not permitted, where the file system or the block device is read-only, and where the system
    /// itself uses the block device, or doesn't tell whether it does.
    ChangeOrLook,
}
