// From bytes to a superblock.
ghost use Rattle.std.specs.Prelude.{◌≡◌, ◌≤◌, IfOk, IfErr};
ghost use Rattle.md_super.specs.Format.{IsSuper, roles_in};
ghost use Rattle.md_super.specs.Faults.{IsSoundSuper, IsFirstSuperFault, NoSuperFault, super_fault_of};

use crate::fault::SuperFault;
use crate::roles::{MAX_ROLES, Roles};
use crate::summing::checksum;
use crate::superblock::{
    FEATURE_BAD_BLOCKS, FEATURE_BITMAP_OFFSET, FEATURE_RECOVERY_OFFSET, LEVEL, MAGIC,
    MAJOR_VERSION, MAX_RAID_DISKS, SUPER_SECTOR, Superblock,
};
use md_format::{array_at, u8_at, u16_at, u32_at, u64_at, uuid_at};
use std::alloc::{AllocError, Global};

const UNSUPPORTED_FEATURES: u32 = !(FEATURE_BITMAP_OFFSET
    | FEATURE_RECOVERY_OFFSET
    | FEATURE_BAD_BLOCKS);

/// The superblock that the bytes spell, or the first fault in them, in the order of `SuperFault`.
/// `NoMemory` comes last: only where no other fault stands.
pub fn decode(alloc: Global, bytes: &[u8; 4096]) -> Result<Superblock, SuperFault>
    ensures ok { IfOk result (λ v. IsSuper bytes.now v) }
    ensures sound { IfOk result (λ _. NoSuperFault bytes.now) }
    ensures refused { IfErr result (λ f. IsFirstSuperFault bytes.now f) }
{
    match first_fault(bytes) {
        Some(fault) => Err(fault),
        None => Ok(read_fields(alloc, bytes)?),
    }
}

// The first fault but for NoMemory.
#[tactic(auto, unfolding(crate::specs::Faults::super_fault_of))]
fn first_fault(bytes: &[u8; 4096]) -> Option<SuperFault>
    ensures { result ≡ super_fault_of bytes.now }
{
    if u32_at(bytes, 0) != MAGIC {
        return Some(SuperFault::Magic);
    }
    if u32_at(bytes, 4) != MAJOR_VERSION {
        return Some(SuperFault::Major);
    }
    let max_dev = u32_at(bytes, 220);
    if max_dev > MAX_ROLES {
        return Some(SuperFault::MaxDev);
    }
    if u32_at(bytes, 216) != checksum(bytes, max_dev) {
        return Some(SuperFault::Checksum);
    }
    if u64_at(bytes, 144) != SUPER_SECTOR {
        return Some(SuperFault::SuperOffset);
    }
    let unsupported = u32_at(bytes, 8) & UNSUPPORTED_FEATURES;
    if unsupported != 0 {
        return Some(SuperFault::Feature(unsupported));
    }
    if u32_at(bytes, 72) != LEVEL {
        return Some(SuperFault::Level);
    }
    let raid_disks = u32_at(bytes, 92);
    if raid_disks == 0 || raid_disks > MAX_RAID_DISKS {
        return Some(SuperFault::RaidDisks);
    }
    None
}

fn read_fields(alloc: Global, bytes: &[u8; 4096]) -> Result<Superblock, AllocError>
    requires { IsSoundSuper bytes.now }
    ensures { IfOk result (λ v. IsSuper bytes.now v) }
{
    let list = role_list(alloc, bytes, u32_at(bytes, 220) as usize)?;
    Ok(Superblock {
        feature_map: u32_at(bytes, 8),
        set_uuid: uuid_at(bytes, 16),
        set_name: array_at(bytes, 32),
        ctime: u64_at(bytes, 64),
        level: u32_at(bytes, 72),
        layout: u32_at(bytes, 76),
        size: u64_at(bytes, 80),
        chunksize: u32_at(bytes, 88),
        raid_disks: u32_at(bytes, 92),
        bitmap_offset: u32_at(bytes, 96).cast_signed(),
        new_level: u32_at(bytes, 100),
        reshape_position: u64_at(bytes, 104),
        delta_disks: u32_at(bytes, 112),
        new_layout: u32_at(bytes, 116),
        new_chunk: u32_at(bytes, 120),
        new_offset: u32_at(bytes, 124),
        data_offset: u64_at(bytes, 128),
        data_size: u64_at(bytes, 136),
        super_offset: u64_at(bytes, 144),
        recovery_offset: u64_at(bytes, 152),
        dev_number: u32_at(bytes, 160),
        cnt_corrected_read: u32_at(bytes, 164),
        device_uuid: uuid_at(bytes, 168),
        devflags: u8_at(bytes, 184),
        bblog_shift: u8_at(bytes, 185),
        bblog_size: u16_at(bytes, 186),
        bblog_offset: u32_at(bytes, 188).cast_signed(),
        utime: u64_at(bytes, 192),
        events: u64_at(bytes, 200),
        resync_offset: u64_at(bytes, 208),
        sb_csum: u32_at(bytes, 216),
        roles: Roles::from_vec(list),
    })
}

#[tactic(auto, unfolding(crate::specs::Format::roles_in))]
fn role_list(alloc: Global, bytes: &[u8; 4096], count: usize) -> Result<Vec<u16>, AllocError>
    requires { count ≤ 1920 }
    ensures { IfOk result (λ list. list.items ≡ roles_in count bytes.now) }
{
    (0..count)
        .map(|i| u16_at(bytes, 256 + 2 * i))
        .collect(alloc)
}
