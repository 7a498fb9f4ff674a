// A block device, and what the system tells of it by its numbers.
use crate::device::told::{answer_if_told, number, read};
use std::fs::{Files, Metadata};
use std::os::unix::fs::{FileTypeExt, MetadataExt};
use std::{fs, io, str};

/// A block device, by the two numbers that its nodes have.
#[derive(Clone, Copy, Debug, PartialEq, Eq)]
pub(crate) struct BlockDevice {
    pub(crate) major: u32,
    pub(crate) minor: u32,
}

impl BlockDevice {
    /// The block device of a node. Its metadata has both numbers packed into one, as makedev(3) does.
    pub(crate) fn of_node(node: &Metadata) -> Option<BlockDevice> {
        if !node.file_type().is_block_device() {
            return None;
        }
        let packed = node.rdev();
        Some(BlockDevice {
            major: ((packed >> 32) & 0xffff_f000) as u32 | ((packed >> 8) & 0xfff) as u32,
            minor: ((packed >> 12) & 0xffff_ff00) as u32 | (packed & 0xff) as u32,
        })
    }

    /// The block device whose numbers a text has, as `8:1`.
    pub(crate) fn parse(text: &str) -> Option<BlockDevice> {
        let (major, minor) = text.split_once(':')?;
        Some(BlockDevice {
            major: major.parse().ok()?,
            minor: minor.parse().ok()?,
        })
    }

    /// The block device in a folder of the system's.
    pub(crate) fn in_folder<R: Files + AllocGlobal>(
        rt: &R,
        folder: &str,
    ) -> io::Result<Option<BlockDevice>> {
        let path = format!(in rt.alloc(); "{folder}/dev")?;
        let text = read(rt, path.as_str())?;
        Ok(
            str::from_utf8(text.as_slice())
                .ok()
                .and_then(|numbers| BlockDevice::parse(numbers.trim_end())),
        )
    }

    /// The path of what the system tells of it.
    pub(crate) fn path<R: AllocGlobal>(self, rt: &R, name: &str) -> io::Result<String> {
        let (major, minor) = (self.major, self.minor);
        Ok(format!(in rt.alloc(); "/sys/dev/block/{major}:{minor}/{name}")?)
    }

    /// Opens a file of the system's that stands for the device whatever node it is reached by.
    pub(crate) fn open_common<R: Files + AllocGlobal>(self, rt: &R) -> io::Result<Option<R::File>> {
        let path = self.path(rt, "dev")?;
        answer_if_told(fs::open(rt, path.as_str()))
    }

    /// Whether the system lets nobody write to it.
    pub(crate) fn is_read_only<R: Files + AllocGlobal>(self, rt: &R) -> io::Result<bool> {
        let path = self.path(rt, "ro")?;
        let flag = read(rt, path.as_str())?;
        Ok(flag.first() == Some(&b'1'))
    }

    /// The disk of which it is a partition.
    pub(crate) fn disk<R: Files + AllocGlobal>(self, rt: &R) -> io::Result<Option<BlockDevice>> {
        let folder = self.path(rt, "")?;
        if partition_in(rt, folder.as_str())?.is_none() {
            return Ok(None);
        }
        let path = self.path(rt, "..")?;
        BlockDevice::in_folder(rt, path.as_str())
    }

    /// The device itself, and with it the disk of which it is a partition, or its partitions.
    pub(crate) fn with_partitions_or_disk<R: Files + AllocGlobal>(
        self,
        rt: &R,
    ) -> io::Result<Vec<BlockDevice>> {
        let mut devices = vec![in rt.alloc(); self; 1]?;
        if let Some(disk) = self.disk(rt)? {
            devices.push(disk)?;
            return Ok(devices);
        }
        let folder = self.path(rt, "")?;
        let Some(entries) = answer_if_told(fs::read_dir(&rt, folder.as_str()))? else {
            return Ok(devices);
        };
        for entry in entries {
            if let Some(entry) = answer_if_told(entry)?
                && let Some(partition) = partition_in(rt, entry.path().as_str())?
            {
                devices.push(partition)?;
            }
        }
        Ok(devices)
    }

    /// Whether another driver holds it.
    pub(crate) fn has_holder<R: Files + AllocGlobal>(self, rt: &R) -> io::Result<bool> {
        let path = self.path(rt, "holders")?;
        let Some(mut holders) = answer_if_told(fs::read_dir(&rt, path.as_str()))? else {
            return Ok(false);
        };
        Ok(holders.next().is_some())
    }

    /// Whether /sys or /proc shows that a file system on it is mounted. Only some kinds of file systems show this there. They
    /// show it even if no process that can be read has the mount.
    pub(crate) fn has_file_system<R: Files + AllocGlobal>(self, rt: &R) -> io::Result<bool> {
        let Some(name) = self.name(rt)? else {
            return Ok(false);
        };
        let name = name.as_str();
        Ok(
            is_below_each(rt, "/sys/fs", name)?
                || is_below_each(rt, "/proc/fs", name)?
                || is_in_btrfs(rt, name)?,
        )
    }

    /// The system's own name for it, for example loop0.
    pub(crate) fn name<R: Files + AllocGlobal>(self, rt: &R) -> io::Result<Option<String>> {
        let path = self.path(rt, "uevent")?;
        let lines = read(rt, path.as_str())?;
        let name = str::from_utf8(lines.as_slice()).ok().and_then(|lines| lines
            .lines()
            .find_map(|line| line.strip_prefix("DEVNAME=")));
        match name {
            Some(name) => Ok(Some(String::from_str(rt.alloc(), name)?)),
            None => Ok(None),
        }
    }

    /// The node of what a loop device stands over. The system names it by a path, which is another file's where it was opened in
    /// another root, or deleted since.
    pub(crate) fn backing_file<R: Files + AllocGlobal>(
        self,
        rt: &R,
    ) -> io::Result<Option<Metadata>> {
        let path = self.path(rt, "loop/backing_file")?;
        let line = read(rt, path.as_str())?;
        let name = line
            .strip_suffix(b"\n")
            .and_then(|name| str::from_utf8(name).ok());
        match name {
            Some(name) => answer_if_told(fs::metadata(rt, name)),
            None => Ok(None),
        }
    }

    /// A number that the system tells of it.
    pub(crate) fn number<R: Files + AllocGlobal>(
        self,
        rt: &R,
        name: &str,
    ) -> io::Result<Option<u64>> {
        let path = self.path(rt, name)?;
        number(rt, path.as_str())
    }
}

// Whether one of the folders in a folder has a file of this name.
fn is_below_each<R: Files + AllocGlobal>(rt: &R, folder: &str, name: &str) -> io::Result<bool> {
    let Some(kinds) = answer_if_told(fs::read_dir(&rt, folder))? else {
        return Ok(false);
    };
    for kind in kinds {
        if let Some(kind) = answer_if_told(kind)? {
            let path = format!(in rt.alloc(); "{}/{name}", kind.path().as_str())?;
            if answer_if_told(fs::metadata(rt, path.as_str()))?.is_some() {
                return Ok(true);
            }
        }
    }
    Ok(false)
}

// Whether a mounted Btrfs uses the device of this name, perhaps as one of several.
fn is_in_btrfs<R: Files + AllocGlobal>(rt: &R, name: &str) -> io::Result<bool> {
    let path = format!(in rt.alloc(); "devices/{name}")?;
    is_below_each(rt, "/sys/fs/btrfs", path.as_str())
}

// The partition in a folder of the system's, where it is one.
fn partition_in<R: Files + AllocGlobal>(rt: &R, folder: &str) -> io::Result<Option<BlockDevice>> {
    let path = format!(in rt.alloc(); "{folder}/partition")?;
    if read(rt, path.as_str())?.is_empty() {
        return Ok(None);
    }
    BlockDevice::in_folder(rt, folder)
}
