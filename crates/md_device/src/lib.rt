//! Block devices of sectors of 512 bytes: in memory, over another, and one that fails on demand.
//!
//! Contracts see a device as the list of bytes that stand on it, whether it is honest, and which of its calls
//! have failed.
//!
//! Start with the trait `Device`: all that this repository asks of a disk are the clauses of its three
//! methods.
//!
//! `crash_device/`: devices that crash at one moment, for tests.
//!
//! ```
//! let mut device = MemDevice::new(alloc, 16)?;
//! device.write(8, &[0xa5; 512])?;
//! let mut sector = [0; 512];
//! device.read(8, &mut sector)?;
//! ```
#![tactic(auto)]

mod crash_device;
mod device;
mod fault;
mod fault_list;
mod memory;
mod overlay;

pub use crash_device::{CrashDevice, Fuse};
pub use device::{Device, ReadFault, WriteFault};
pub use fault::FaultDevice;
pub use fault_list::{Fault, FaultList};
pub use memory::MemDevice;
pub use overlay::OverlayDevice;
