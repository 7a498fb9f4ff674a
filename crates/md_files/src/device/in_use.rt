// Whether the system uses what is to be changed.
use crate::device::block_device::BlockDevice;
use crate::device::mounts::{Mounts, is_swap_file};
use crate::device::told::answer_if_told;
use md_images::ImageFault;
use std::fs::{Files, Metadata};
use std::os::unix::fs::MetadataExt;
use std::{fs, io, str};

// The major number of loop devices.
const LOOP_MAJOR: u32 = 7;

/// Refuses what the system uses: a block device that is mounted, swapped on or held by another driver, as by device mapper or md, or of
/// which a partition is, or whose whole disk is; a file that it swaps on; and what lies below a loop device that it uses. Where
/// a part of the system's is not there that would tell, it refuses a block device, and a file that a loop device may stand over.
pub(crate) fn check_unused<R: Files + AllocGlobal>(
    rt: &R,
    file: &Metadata,
) -> Result<(), ImageFault> {
    if is_swap_file(rt, file).map_err(ImageFault::Io)? {
        return Err(ImageFault::InUse);
    }
    let devices = devices_on(rt, file)?;
    if devices.is_empty() {
        return Ok(());
    }
    let mounts = Mounts::read(rt)?;
    check_sys(rt)?;
    for device in &devices {
        if is_used(rt, *device, &mounts).map_err(ImageFault::Io)? {
            return Err(ImageFault::InUse);
        }
    }
    Ok(())
}

/// The nodes of the block devices that may be mounted though nothing shows it: the device under this name, its partitions, and
/// the loop devices over it, or over the file under this name. The first has this name as its node. None if all mounts are seen.
pub fn nodes_unseen<R: Files + AllocGlobal>(rt: &R, path: &str) -> Result<Vec<String>, ImageFault> {
    let mut nodes = Vec::new(rt.alloc());
    let Some(file) = answer_if_told(fs::metadata(rt, path)).map_err(ImageFault::Io)? else {
        return Ok(nodes);
    };
    let devices = devices_on(rt, &file)?;
    if devices.is_empty() {
        return Ok(nodes);
    }
    if Mounts::read(rt)?.may_lack_some(rt).map_err(ImageFault::Io)? {
        let own = BlockDevice::of_node(&file);
        for device in &devices {
            add_nodes(rt, *device, own, path, &mut nodes).map_err(ImageFault::Io)?;
        }
    }
    Ok(nodes)
}

// Adds the nodes of a device and of its partitions. The path is the node of the named device.
fn add_nodes<R: Files + AllocGlobal>(
    rt: &R,
    device: BlockDevice,
    own: Option<BlockDevice>,
    path: &str,
    nodes: &mut Vec<String>,
) -> io::Result<()> {
    let parts = match device.disk(rt)? {
        Some(_) => vec![in rt.alloc(); device; 1]?,
        None => device.with_partitions_or_disk(rt)?,
    };
    for part in &parts {
        if own == Some(*part) {
            nodes.push(String::from_str(rt.alloc(), path)?)?;
        } else if let Some(name) = part.name(rt)? {
            nodes.push(format!(in rt.alloc(); "/dev/{name}")?)?;
        }
    }
    Ok(())
}

// Whether a device, one of its partitions or the disk of which it is a partition is mounted, swapped on or held.
fn is_used<R: Files + AllocGlobal>(
    rt: &R,
    device: BlockDevice,
    mounts: &Mounts,
) -> io::Result<bool> {
    let devices = device.with_partitions_or_disk(rt)?;
    if mounts.has_one_of(devices.as_slice()) {
        return Ok(true);
    }
    for device in &devices {
        if device.has_holder(rt)? || device.has_file_system(rt)? {
            return Ok(true);
        }
    }
    Ok(false)
}

// Whether there is what tells of devices.
fn check_sys<R: Files>(rt: &R) -> Result<(), ImageFault> {
    match answer_if_told(fs::metadata(rt, "/sys/dev/block")).map_err(ImageFault::Io)? {
        Some(_) => Ok(()),
        None => Err(ImageFault::NoSys),
    }
}

// The block device with this metadata, and the loop devices that stand over it, or over the file with this metadata, or over a
// loop device that does.
fn devices_on<R: Files + AllocGlobal>(
    rt: &R,
    file: &Metadata,
) -> Result<Vec<BlockDevice>, ImageFault> {
    let loops = loop_devices(rt)?;
    if !loops.is_empty() {
        check_sys(rt)?;
    }
    stack_on(rt, file, loops.as_slice()).map_err(ImageFault::Io)
}

fn stack_on<R: Files + AllocGlobal>(
    rt: &R,
    file: &Metadata,
    loops: &[BlockDevice],
) -> io::Result<Vec<BlockDevice>> {
    let mut found = Vec::new(rt.alloc());
    let mut stack = Vec::new(rt.alloc());
    if let Some(device) = BlockDevice::of_node(file) {
        found.push(device)?;
        stack.append(&mut device.with_partitions_or_disk(rt)?)?;
    }
    // No more of them stand over one another than there are.
    for _ in loops {
        let known = found.len();
        for device in loops {
            if !stack.contains(device) && stands_over(rt, *device, file, stack.as_slice())? {
                found.push(*device)?;
                stack.append(&mut device.with_partitions_or_disk(rt)?)?;
            }
        }
        if found.len() == known {
            break;
        }
    }
    Ok(found)
}

// Whether a loop device stands over one of these devices, or over the file with this metadata.
fn stands_over<R: Files + AllocGlobal>(
    rt: &R,
    device: BlockDevice,
    file: &Metadata,
    devices: &[BlockDevice],
) -> io::Result<bool> {
    let Some(backing) = device.backing_file(rt)? else {
        return Ok(false);
    };
    Ok(match BlockDevice::of_node(&backing) {
        Some(below) => devices.contains(&below),
        None => backing.dev() == file.dev() && backing.ino() == file.ino(),
    })
}

// The loop devices that have a backing file: those that have a size, or where /proc is not there, all that there are.
fn loop_devices<R: Files + AllocGlobal>(rt: &R) -> Result<Vec<BlockDevice>, ImageFault> {
    match answer_if_told(fs::read(rt, "/proc/partitions")).map_err(ImageFault::Io)? {
        Some(listed) => loops_listed(rt, listed.as_slice()).map_err(ImageFault::Io),
        None => loops_in_sys(rt)
            .map_err(ImageFault::Io)?
            .ok_or(ImageFault::NoProc),
    }
}

fn loops_listed<R: AllocGlobal>(rt: &R, listed: &[u8]) -> io::Result<Vec<BlockDevice>> {
    let mut loops = Vec::new(rt.alloc());
    for line in listed.split(|byte| *byte == b'\n') {
        if let Some(device) = device_in_line(line)
            && device.major == LOOP_MAJOR
        {
            loops.push(device)?;
        }
    }
    Ok(loops)
}

fn loops_in_sys<R: Files + AllocGlobal>(rt: &R) -> io::Result<Option<Vec<BlockDevice>>> {
    let Some(disks) = answer_if_told(fs::read_dir(&rt, "/sys/block"))? else {
        return Ok(None);
    };
    let mut loops = Vec::new(rt.alloc());
    for disk in disks {
        if let Some(disk) = answer_if_told(disk)?
            && let Some(device) = BlockDevice::in_folder(rt, disk.path().as_str())?
            && device.major == LOOP_MAJOR
        {
            loops.push(device)?;
        }
    }
    Ok(Some(loops))
}

// The device of a line of the system's list of devices: its numbers come first.
fn device_in_line(line: &[u8]) -> Option<BlockDevice> {
    let mut words = str::from_utf8(line).ok()?.split_whitespace();
    Some(BlockDevice {
        major: words.next()?.parse().ok()?,
        minor: words.next()?.parse().ok()?,
    })
}
