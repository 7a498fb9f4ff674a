// Why an image can't be opened.
use std::io;
use thiserror::Error;

/// Why an image can't be opened.
#[derive(Debug, Drop, Error)]
pub enum ImageFault {
    #[error("no such file: check the path, or create the image first")]
    Missing,
    #[error("this is a directory: name an image file or a block device")]
    Directory,
    #[error("this is a pipe: name an image file or a block device")]
    Fifo,
    #[error("this is a socket: name an image file or a block device")]
    Socket,
    #[error("this is a character device: name an image file or a block device")]
    CharacterDevice,
    #[error("no permission: ask its owner for permission to read it, or run as a user who may")]
    NoPermission,
    /// Writing is not permitted, the file system or the block device is read-only, or it is a program
    /// that is running.
    #[error("it can't be written: ask for write permission, or make its file system or device writable")]
    NotWritable,
    /// A block device that is mounted, swapped on or held by another driver, or of which a partition
    /// is, or whose whole disk is; or the backing file of a loop device that is.
    #[error("in use by the system: unmount it or the loop device over it, end swapping on it, or stop what holds it")]
    InUse,
    /// Whether the system uses a block device, or a file that a loop device may stand over, is not told without /proc, which
    /// has what is mounted and swapped on.
    #[error("whether the system uses it can't be told, as /proc is not there: mount it, or only look at the image")]
    NoProc,
    /// It is not told without /sys, which has what holds a device, and over what a loop device stands.
    #[error("whether the system uses it can't be told, as /sys is not there: mount it, or only look at the image")]
    NoSys,
    /// A loop device and the file or the device below it, or two loop devices over the same part of one, or a disk and its
    /// partition, or two links to a file.
    #[error("it was named before, by another name of the same disk: name it once")]
    NamedBefore,
    #[error("in use by another program, or named twice: close it there, or name it once")]
    Locked,
    #[error("{0}")]
    Io(io::Error),
}
