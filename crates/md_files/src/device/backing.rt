// Where an image lies, whatever it is called.
ghost use Rattle.std.specs.Prelude.{◌≡◌, ◌<◌, ◌↔◌, IsTrue};

use crate::device::block_device::BlockDevice;
use std::fs::{Files, Metadata};
use std::os::unix::fs::MetadataExt;
use std::{fs, io};

// Loop devices and partitions that stand over one another are followed so far.
const DEEPEST: usize = 32;

const SECTOR: u64 = 512;

/// The bytes of a file or a disk in which an image lies, below all loop devices and partitions, as far as the system tells.
#[derive(Clone, Copy, Debug, PartialEq, Eq)]
pub struct Backing {
    below: Below,
    start: u64,
    end: u64,
}

// A regular file, by its file system and its inode there, or a block device.
#[derive(Clone, Copy, Debug, PartialEq, Eq)]
enum Below {
    File(u64, u64),
    Disk(BlockDevice),
}

impl Backing {
    /// Where the file or the disk under a name lies. An open stream has a name in /proc.
    pub fn of_path<R: Files + AllocGlobal>(rt: &R, path: &str) -> io::Result<Backing> {
        Backing::of_file(rt, &fs::metadata(rt, path)?)
    }

    /// Where the file with this metadata lies. Of a loop device the system names what is below by a path; where that can't be
    /// found, as it was opened in another root, the device counts as a disk of its own.
    pub(crate) fn of_file<R: Files + AllocGlobal>(rt: &R, file: &Metadata) -> io::Result<Backing> {
        let mut backing = Backing::whole(file);
        for _ in 0..DEEPEST {
            let Below::Disk(device) = backing.below else {
                break;
            };
            let Some(outer) = below_of(rt, device)? else {
                break;
            };
            backing = backing.within(outer);
        }
        Ok(backing)
    }

    /// Whether some byte of the two is the same.
    pub fn overlaps(self, other: Backing) -> bool
        ensures { IsTrue result ↔ ((self.below ≡ other.below) × (self.start < other.end) × (other.start < self.end)) }
    {
        self.below == other.below && self.start < other.end && other.start < self.end
    }

    fn whole(file: &Metadata) -> Backing {
        let below = match BlockDevice::of_node(file) {
            Some(device) => Below::Disk(device),
            None => Below::File(file.dev(), file.ino()),
        };
        Backing {
            below,
            start: 0,
            end: u64::MAX,
        }
    }

    // The bytes of what lies below, where these are of the device that is a part of it.
    fn within(self, part: Backing) -> Backing {
        Backing {
            below: part.below,
            start: part.start.saturating_add(self.start),
            end: part.end.min(part.start.saturating_add(self.end)),
        }
    }

    // So many bytes of it from a byte on.
    fn part(self, start: u64, len: u64) -> Backing {
        Backing {
            below: self.below,
            start,
            end: start.saturating_add(len),
        }
    }
}

// The part of a disk that a partition is, or the part of a file or a disk that a loop device stands over.
fn below_of<R: Files + AllocGlobal>(rt: &R, device: BlockDevice) -> io::Result<Option<Backing>> {
    if let Some(disk) = device.disk(rt)? {
        let start = device.number(rt, "start")?.unwrap_or(0);
        let len = device.number(rt, "size")?.unwrap_or(u64::MAX);
        let disk = Backing {
            below: Below::Disk(disk),
            start: 0,
            end: u64::MAX,
        };
        return Ok(Some(disk.part(start.saturating_mul(SECTOR), len.saturating_mul(SECTOR))));
    }
    let Some(file) = device.backing_file(rt)? else {
        return Ok(None);
    };
    let start = device.number(rt, "loop/offset")?.unwrap_or(0);
    let len = match device.number(rt, "loop/sizelimit")? {
        None | Some(0) => u64::MAX,
        Some(limit) => limit,
    };
    Ok(Some(Backing::whole(&file).part(start, len)))
}
