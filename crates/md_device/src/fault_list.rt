// Calls that failed, which contracts alone see.
ghost use Rattle.std.specs.Prelude.{◌≡◌, ◌++◌, ◌∷◌, [], List};
ghost use Rattle.md_device.specs.declared.fault_list.Fault.{Fault};
ghost use Rattle.md_device.specs.Failing.{failed_read, failed_write};

use std::marker::Model;

/// A call of a device that failed: whether it was to write, its first sector, and how many bytes it was of.
#[derive(Clone, Copy)]
pub struct Fault {
    pub writes: bool,
    pub sector: u64,
    pub size: usize,
}

impl Fault {
    /// A read.
    pub fn read(sector: u64, size: usize) -> Fault
        ensures { result ≡ failed_read sector size }
    {
        Fault {
            writes: false,
            sector,
            size,
        }
    }

    /// A write.
    pub fn write(sector: u64, size: usize) -> Fault
        ensures { result ≡ failed_write sector size }
    {
        Fault {
            writes: true,
            sector,
            size,
        }
    }
}

/// A list for contracts, as a device keeps of its calls that failed, the last of them last. It takes no memory, and to add
/// to it does nothing when the program runs, so that it has no greatest length.
#[derive(Drop)]
pub struct FaultList {
    pub ghost list: { List Fault },
}

impl Model for FaultList {
    ghost use Rattle.std.specs.Borrow.{ftrue};

    ghost also_owns = { λ _. ftrue };
}

// It owns nothing.
unsafe impl Send for FaultList {}

unsafe impl Sync for FaultList {}

impl FaultList {
    /// No call has failed.
    pub fn empty() -> FaultList
        ensures { result.list ≡ [] }
    {
        FaultList {}
    }

    /// One call more has failed.
    pub fn with_fault(&self, _fault: &Fault) -> FaultList
        ensures { result.list ≡ self.now.list ++ _fault.now ∷ [] }
    {
        FaultList {}
    }
}
