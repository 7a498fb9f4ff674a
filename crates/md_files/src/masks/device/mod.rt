//! A disk as its copy has it: a device over the copy that does not give the sectors which the disk did not give.
//!
//! Start with `MaskedDevice::new`: a read that meets the mask fails, and what is written is no longer in it.
//!
//! ```
//! let mut disk = MaskedDevice::new(copy, missing);
//! let answer = disk.read(8, &mut sector);
//! ```

mod hidden;
mod masked;

pub use masked::MaskedDevice;
