// All that a device holds.
ghost use Rattle.std.specs.Prelude.{◌≡◌, ◌≤◌, [], IfOk, false, length, vec_capacity};
ghost use Rattle.md_notices.specs.Signatures.Finding.{FindsSignatures, signatures};
ghost use Rattle.md_notices.specs.Signatures.Reading.{Heeds, IsOnlySearched};

use crate::signatures::bearing::bears;
use crate::signatures::signature::{SIGNATURES, Signature};
use md_device::Device;
use std::alloc::{AllocError, Global};

/// What a look at a device finds: the signatures that it bears, and whether a read of it failed, so that it may bear more.
#[derive(Drop)]
pub struct Look {
    pub found: Vec<Signature>,
    pub has_failed: bool,
}

/// An empty list that has room for all signatures.
pub(crate) fn signature_list(alloc: Global) -> Result<Vec<Signature>, AllocError>
    ensures { IfOk result (λ found. (found.items ≡ []) × (length signatures ≤ vec_capacity found)) }
{
    Vec::with_capacity(alloc, SIGNATURES.len())
}

/// The signatures that a device bears, in the order of `SIGNATURES`, in a list of `signature_list`. It is read in a few
/// sectors, and not written, and no memory is taken.
///
/// A sector that it has not, or that it does not give, bears none.
pub fn find_signatures<D: Device>(mut found: Vec<Signature>, device: &mut D) -> Look
    requires room { (found.items ≡ []) × (length signatures ≤ vec_capacity found) }
    ensures only_read { IsOnlySearched D.Device device.old device.new }
    ensures finds { FindsSignatures D.Device device.old device.new result.found.items }
    ensures heeds { Heeds D.Device device.old device.new false result.has_failed }
{
    let mut has_failed = false;
    for signature in SIGNATURES {
        if bears(device, signature, &mut has_failed) {
            found.push_reserved(signature);
        }
    }
    Look { found, has_failed }
}
