// What is mounted and swapped on, as the processes of the system show it.
use crate::device::block_device::BlockDevice;
use crate::device::told::{answer_if_told, read};
use md_images::ImageFault;
use std::alloc::{AllocError, Global};
use std::fs::{Files, Metadata};
use std::os::unix::fs::MetadataExt;
use std::{fs, io, str};

// The number of the first process namespace, which is the same in every kernel (linux/proc_ns.h, PROC_PID_INIT_INO).
const FIRST_PROCESSES: u64 = 0xeffffffc;

/// The block devices that are mounted or swapped on.
#[derive(Drop)]
pub(crate) struct Mounts {
    devices: Vec<BlockDevice>,
    // The mount namespaces that were seen, and those that a file keeps.
    seen: Vec<u64>,
    kept: Vec<u64>,
}

// What mounts a process sees: those of its mount namespace, from its root on.
#[derive(Clone, Copy, PartialEq, Eq)]
struct View {
    namespace: (u64, u64),
    root: (u64, u64),
}

impl Mounts {
    /// What the processes that can be read show, each view once: a device may be mounted in another mount namespace alone. A process
    /// that ends while it is read is passed over.
    pub(crate) fn read<R: Files + AllocGlobal>(rt: &R) -> Result<Mounts, ImageFault> {
        let own = fs::read(rt, "/proc/self/mountinfo");
        let own = answer_if_told(own).map_err(ImageFault::Io)?;
        let processes = answer_if_told(fs::read_dir(&rt, "/proc")).map_err(ImageFault::Io)?;
        let (Some(own), Some(processes)) = (own, processes) else {
            return Err(ImageFault::NoProc);
        };
        let mut mounts = Mounts {
            devices: Vec::new(rt.alloc()),
            seen: Vec::new(rt.alloc()),
            kept: Vec::new(rt.alloc()),
        };
        mounts.add(rt, own.as_slice()).map_err(ImageFault::Io)?;
        let swaps = read(rt, "/proc/swaps").map_err(ImageFault::Io)?;
        mounts.add(rt, swaps.as_slice()).map_err(ImageFault::Io)?;
        let mut seen = Seen {
            views: Vec::new(rt.alloc()),
            last: own,
        };
        for process in processes {
            let process = answer_if_told(process).map_err(ImageFault::Io)?;
            if let Some(process) = process
                && is_number(process.file_name())
            {
                mounts
                    .add_process(rt, process.path().as_str(), &mut seen)
                    .map_err(ImageFault::Io)?;
            }
        }
        Ok(mounts)
    }

    /// Whether one of these devices is among them.
    pub(crate) fn has_one_of(&self, devices: &[BlockDevice]) -> bool {
        self.devices.iter().any(|device| devices.contains(device))
    }

    /// Whether something may be mounted that these do not show. It may be if this process is in a container: then a process outside
    /// may have mounted it. It also may be if a file keeps a mount namespace, and no process in that namespace can be read.
    pub(crate) fn may_lack_some<R: Files>(&self, rt: &R) -> io::Result<bool> {
        let processes = answer_if_told(fs::metadata(rt, "/proc/self/ns/pid"))?;
        let is_contained = processes.is_some_and(|own| own.ino() != FIRST_PROCESSES);
        Ok(
            is_contained
                || !self
                    .kept
                    .iter()
                    .all(|namespace| self.seen.contains(namespace)),
        )
    }

    fn add_process<R: Files + AllocGlobal>(
        &mut self,
        rt: &R,
        folder: &str,
        seen: &mut Seen,
    ) -> io::Result<()> {
        let view = view_of(rt, folder)?;
        if let Some(view) = view
            && seen.views.contains(&view)
        {
            return Ok(());
        }
        let path = format!(in rt.alloc(); "{folder}/mountinfo")?;
        let Some(table) = answer_if_told(fs::read(rt, path.as_str()))? else {
            return Ok(());
        };
        if let Some(view) = view {
            seen.views.push(view)?;
            self.seen.push(view.namespace.1)?;
        }
        if table.as_slice() != seen.last.as_slice() {
            self.add(rt, table.as_slice())?;
            seen.last = table;
        }
        Ok(())
    }

    // Adds what the words of a table name. The system's list of mounts has the number and the node of each mounted device. A file
    // system with numbers of its own, such as btrfs, shows its device only by the node. The list of swap spaces has nodes. If a file
    // keeps a mount namespace, that is a mount too.
    fn add<R: Files>(&mut self, rt: &R, table: &[u8]) -> io::Result<()> {
        for word in table.split(|byte| byte.is_ascii_whitespace()) {
            if let Some(namespace) = namespace_named(word) {
                self.kept.push(namespace)?;
            } else if let Some(device) = device_named(rt, word)
                && !self.devices.contains(&device)
            {
                self.devices.push(device)?;
            }
        }
        Ok(())
    }
}

// Whose mounts were read, and the last table: where a process doesn't show what its view is, most have the same one.
#[derive(Drop)]
struct Seen {
    views: Vec<View>,
    last: Vec<u8>,
}

// The view of a process, where this one may see it.
fn view_of<R: Files + AllocGlobal>(rt: &R, folder: &str) -> io::Result<Option<View>> {
    let namespace = node_below(rt, folder, "ns/mnt")?;
    let root = node_below(rt, folder, "root")?;
    Ok(match (namespace, root) {
        (Some(namespace), Some(root)) => Some(View { namespace, root }),
        _ => None,
    })
}

fn node_below<R: Files + AllocGlobal>(
    rt: &R,
    folder: &str,
    name: &str,
) -> io::Result<Option<(u64, u64)>> {
    let path = format!(in rt.alloc(); "{folder}/{name}")?;
    Ok(answer_if_told(fs::metadata(rt, path.as_str()))?.map(|node| (node.dev(), node.ino())))
}

fn is_number(name: &str) -> bool {
    name.bytes().all(|byte| byte.is_ascii_digit())
}

// The mount namespace that a word names, for example `mnt:[4026532281]`.
fn namespace_named(word: &[u8]) -> Option<u64> {
    let number = word.strip_prefix(b"mnt:[")?.strip_suffix(b"]")?;
    str::from_utf8(number).ok()?.parse().ok()
}

// The block device that a word names, by its numbers or by a node.
fn device_named<R: Files>(rt: &R, word: &[u8]) -> Option<BlockDevice> {
    let word = str::from_utf8(word).ok()?;
    if word.starts_with("/dev/") {
        return BlockDevice::of_node(&fs::metadata(rt, word).ok()?);
    }
    BlockDevice::parse(word)
}

/// Whether the system swaps on the file with this metadata. It names its swap files by paths.
pub(crate) fn is_swap_file<R: Files + AllocGlobal>(rt: &R, file: &Metadata) -> io::Result<bool> {
    let swaps = read(rt, "/proc/swaps")?;
    for line in swaps.split(|byte| *byte == b'\n') {
        let path = line.split(|byte| byte.is_ascii_whitespace()).next();
        if let Some(path) = path
            && is_path_of(rt, path, file)?
        {
            return Ok(true);
        }
    }
    Ok(false)
}

// Whether a path of the system's lists names the file with this metadata.
fn is_path_of<R: Files + AllocGlobal>(rt: &R, path: &[u8], file: &Metadata) -> io::Result<bool> {
    let name = unescape(rt.alloc(), path)?;
    let Ok(name) = str::from_utf8(name.as_slice()) else {
        return Ok(false);
    };
    Ok(answer_if_told(fs::metadata(rt, name))?.is_some_and(|named| named.dev() == file.dev()
        && named.ino() == file.ino()))
}

// A path of the system's lists as it is: there each byte that would end a word is a backslash and three octal digits.
fn unescape(alloc: Global, path: &[u8]) -> Result<Vec<u8>, AllocError> {
    let mut name = Vec::new(alloc);
    let mut parts = path.split(|byte| *byte == b'\\');
    if let Some(first) = parts.next() {
        name.extend_from_slice(first)?;
    }
    for part in parts {
        let digits = &part[..part.len().min(3)];
        if let Some(byte) = octal(digits) {
            name.push(byte)?;
        }
        name.extend_from_slice(&part[digits.len()..])?;
    }
    Ok(name)
}

fn octal(digits: &[u8]) -> Option<u8> {
    u8::from_str_radix(str::from_utf8(digits).ok()?, 8).ok()
}
