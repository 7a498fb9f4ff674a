// Whether an array can be made of the devices.
ghost use Rattle.std.specs.Prelude.{◌≡◌, ◌↔◌, ◌≤◌, ◌+◌, ℕ, true, IfSome, IfNone, Some, None};
ghost use Rattle.md_create.specs.Geometry.{HasDevice, IsGeometry, IsLeastDevice, IsWriteMostlyRole, lesser_of};

use crate::params::CreateParams;
use crate::places::DATA_SECTOR;
use md_bitmap::{has_few_chunks, is_chunk_size};
use md_super::MAX_RAID_DISKS;

/// The size of the array that the devices make, where they make one.
pub fn size_of(params: &CreateParams, sizes: &[Option<u64>]) -> Option<u64>
    ensures some { IfSome result (IsGeometry params.now sizes.now) }
    ensures none { IfNone result ((size : ℕ) → IsGeometry params.now sizes.now size → ⊥) }
{
    if sizes.is_empty() {
        return None;
    }
    if sizes.len() > MAX_RAID_DISKS as usize {
        return None;
    }
    let least = least_device(sizes)?;
    if least <= DATA_SECTOR {
        return None;
    }
    let room = least - DATA_SECTOR;
    let size = params.size.unwrap_or(room);
    if size == 0 {
        return None;
    }
    if size > room {
        return None;
    }
    if !is_chunk_size(params.chunk_bytes) {
        return None;
    }
    if !has_few_chunks(size, params.chunk_bytes) {
        return None;
    }
    if !has_write_mostly(params, sizes) {
        return None;
    }
    Some(size)
}

// Whether the role that is to be write-mostly, if one is, has a device.
fn has_write_mostly(params: &CreateParams, sizes: &[Option<u64>]) -> bool
    ensures { (result ≡ true) ↔ IsWriteMostlyRole params.now.write_mostly sizes.now }
{
    let Some(role) = params.write_mostly else {
        return true;
    };
    let role = role as usize;
    role < sizes.len() && sizes[role].is_some()
}

// The sectors of the least device, where one is there.
fn least_device(sizes: &[Option<u64>]) -> Option<u64>
    ensures some { IfSome result (IsLeastDevice sizes.now) }
    ensures none { IfNone result ((role n : ℕ) → HasDevice sizes.now role n → ⊥) }
{
    let mut least = None;
    for size in sizes {
        least = lesser(least, *size);
    }
    least
}

// The lesser of two sizes, or the one that there is.
fn lesser(least: Option<u64>, size: Option<u64>) -> Option<u64>
    ensures { result ≡ lesser_of least size }
{
    match (least, size) {
        (Some(least), Some(size)) => Some(least.min(size)),
        (Some(least), None) => Some(least),
        (None, size) => size,
    }
}
