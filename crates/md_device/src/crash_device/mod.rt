//! Devices that crash at one moment, for tests: they stand over other devices and share a count of writes,
//! and once so many have passed, none of them takes another.
//!
//! Start with `CrashDevice::new`; each device has a share of one `Fuse`.
//!
//! ```
//! let fuse = Fuse::new(alloc, 5)?;
//! let mut first = CrashDevice::new(image, fuse.share()?, 2048);
//! let mut second = CrashDevice::new(other, fuse.share()?, 2048);
//! ```

mod count;
mod device;

pub use count::Fuse;
pub use device::CrashDevice;
