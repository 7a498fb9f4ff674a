// Whether an image may be mounted where this program can't see it.
use md_files::{Cleared, FileDevice, Line, nodes_unseen};
use md_images::{Access, ImageFault};
use md_notices::{SIGNATURES, Signature, find_signatures};
use md_streams::put_name;
use std::io::{self, Write};

/// Whether the image under a name has something on it that may be mounted out of sight. That is a file system of a kind that
/// only the tables of mounts show, or an image that can't be looked at.
pub fn may_be_mounted(rt: &HostRuntime, name: &str) -> Result<bool, ImageFault> {
    match nodes_unseen(rt, name) {
        // The opening that follows refuses it.
        Err(ImageFault::NoProc | ImageFault::NoSys) => Ok(false),
        nodes => is_on_one(rt, &nodes?, name),
    }
}

fn is_on_one(rt: &HostRuntime, nodes: &[String], name: &str) -> Result<bool, ImageFault> {
    for node in nodes {
        if is_on(rt, node, name)? {
            return Ok(true);
        }
    }
    Ok(false)
}

/// Says so on standard error. The text of the fault does not say what to do then.
pub fn tell_hidden<L: Line>(rt: &HostRuntime, line: &L, name: &str) {
    let mut err = Cleared::new(rt.stderr(), line, true);
    let _ = write!(err, "mdcli: ");
    let _ = put_name(&mut err, name);
    let _ = writeln!(
        err,
        ": its file system may be mounted where this can't be seen, as outside of a container: unmount it there, and give --run"
    );
}

// Whether such a file system is on a node. If a member of an array is there, its signature is an old one: a member leaves the first
// sector of what was there before. If the image itself can't be opened, the opening that follows says why.
fn is_on(rt: &HostRuntime, node: &str, name: &str) -> Result<bool, ImageFault> {
    let Ok(found) = Vec::with_capacity(rt.alloc(), SIGNATURES.len()) else {
        return Err(ImageFault::Io(io::Error::from(io::ErrorKind::OutOfMemory)));
    };
    let Ok(mut device) = FileDevice::open(rt, node, Access::Look) else {
        return Ok(node != name);
    };
    let found = find_signatures(found, &mut device).found;
    let is_member = found
        .iter()
        .any(|signature| matches!(signature, Signature::Md12));
    Ok(!is_member && found.iter().any(|signature| is_told_by_mounts(*signature)))
}

// Whether only the tables of mounts show that what has this signature is in use. /sys and /proc have no other sign of it, and it
// is neither a holder nor a swap space.
fn is_told_by_mounts(signature: Signature) -> bool {
    matches!(
        signature,
        Signature::Jfs
            | Signature::Reiserfs
            | Signature::Ntfs
            | Signature::Exfat
            | Signature::Fat
            | Signature::Squashfs
            | Signature::Iso9660
    )
}
