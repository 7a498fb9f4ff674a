// The faults of a superblock, each by itself.
ghost use Rattle.std.specs.Prelude.{◌≡◌, ◌<◌, ◌≤◌, ◌↔◌, true};
ghost use Rattle.std.specs.List.{flat_map};
ghost use Rattle.md_format.specs.Fields.{number_at};
ghost use Rattle.md_super.specs.Profile.{unsupported_features};
ghost use Rattle.md_streams.specs.Sink.{PutsOrFails};
ghost use Rattle.md_raw_reports.specs.SuperFaults.{IsSuperFaultSeen, fault_line, super_fault_name, super_fault_text, faults_of, faults_text, is_seen, is_told, roles_read_in, super_fault_stands};

use itoa::Buffer;
use md_examine::{line, two_part_line};
use md_format::{u32_at, u64_at};
use md_streams::{Sink, SinkFault};
use md_super::{
    FEATURE_BAD_BLOCKS, FEATURE_BITMAP_OFFSET, FEATURE_RECOVERY_OFFSET, LEVEL, MAGIC,
    MAJOR_VERSION, MAX_RAID_DISKS, MAX_ROLES, SUPER_SECTOR, SuperFault, checksum,
};

const UNSUPPORTED_FEATURES: u32 = !(FEATURE_BITMAP_OFFSET
    | FEATURE_RECOVERY_OFFSET
    | FEATURE_BAD_BLOCKS);

/// A line for each fault that stands in the bytes, in the order in which a superblock is refused by them, as far as it can be told
/// by the first so many sectors.
#[tactic(auto, unfolding(crate::specs::SuperFaults::faults_text))]
pub(crate) fn super_fault_lines<S: Sink>(
    out: &mut S,
    label: &str,
    read: u32,
    bytes: &[u8; 4096],
) -> Result<(), SinkFault>
    requires { read ≤ 8 }
    ensures { PutsOrFails S.contents S.failed out.old out.new (faults_text label.now read bytes.now) result }
{
    if read == 0 {
        return Ok(());
    }
    lines_of(out, label, read, bytes, &super_faults_of(bytes))
}

/// The faults that may stand in the bytes of a superblock, in the order in which it is refused by them.
pub(crate) fn super_faults_of(bytes: &[u8; 4096]) -> [SuperFault; 8]
    ensures { result ≡ faults_of bytes.now }
{
    [
        SuperFault::Magic,
        SuperFault::Major,
        SuperFault::MaxDev,
        SuperFault::Checksum,
        SuperFault::SuperOffset,
        SuperFault::Feature(unsupported_features(bytes)),
        SuperFault::Level,
        SuperFault::RaidDisks,
    ]
}

fn lines_of<S: Sink>(
    out: &mut S,
    label: &str,
    read: u32,
    bytes: &[u8; 4096],
    faults: &[SuperFault],
) -> Result<(), SinkFault>
    requires some { 0 < read }
    requires few { read ≤ 8 }
    ensures { PutsOrFails S.contents S.failed out.old out.new (flat_map (super_fault_text label.now read bytes.now) faults.now) result }
{
    for fault in faults {
        line_where_it_stands(out, label, read, bytes, *fault)?;
    }
    Ok(())
}

fn line_where_it_stands<S: Sink>(
    out: &mut S,
    label: &str,
    read: u32,
    bytes: &[u8; 4096],
    fault: SuperFault,
) -> Result<(), SinkFault>
    requires some { 0 < read }
    requires few { read ≤ 8 }
    ensures { PutsOrFails S.contents S.failed out.old out.new (super_fault_text label.now read bytes.now fault) result }
{
    if super_fault_is_seen(read, bytes, fault) {
        fault_name_line(out, label, fault)
    } else {
        Ok(())
    }
}

/// The bits of the feature map that are no feature of this project.
pub(crate) fn unsupported_features(bytes: &[u8; 4096]) -> u32
    ensures { result ≡ unsupported_features (number_at 4 8 bytes.now) }
{
    u32_at(bytes, 8) & UNSUPPORTED_FEATURES
}

/// Whether a fault stands, and can be told by the first so many sectors.
pub fn super_fault_is_seen(read: u32, bytes: &[u8; 4096], fault: SuperFault) -> bool
    requires some { 0 < read }
    requires few { read ≤ 8 }
    ensures { result ≡ is_seen read bytes.now fault }
{
    is_told(read, bytes, fault) && super_fault_stands(bytes, fault)
}

fn is_told(read: u32, bytes: &[u8; 4096], fault: SuperFault) -> bool
    requires some { 0 < read }
    requires few { read ≤ 8 }
    ensures { result ≡ is_told read bytes.now fault }
{
    match fault {
        SuperFault::Checksum => u32_at(bytes, 220) <= roles_read_in(read),
        _ => true,
    }
}

/// How many roles the first so many sectors of a superblock have room for.
pub(crate) fn roles_read_in(read: u32) -> u32
    requires some { 0 < read }
    requires few { read ≤ 8 }
    ensures { result ≡ roles_read_in read }
{
    256 * read - 128
}

fn fault_name_line<S: Sink>(out: &mut S, label: &str, fault: SuperFault) -> Result<(), SinkFault>
    ensures { PutsOrFails S.contents S.failed out.old out.new (fault_line label.now fault) result }
{
    match fault {
        SuperFault::Feature(bits) => {
            let mut buffer = Buffer::new();
            let bits = buffer.format(bits).as_bytes();
            two_part_line(out, label, b"Feature ", bits)
        }
        _ => line(out, label, super_fault_name(fault).as_bytes()),
    }
}

/// What a fault of a superblock is called.
pub(crate) fn super_fault_name(fault: SuperFault) -> &'static str
    ensures { result.now ≡ super_fault_name fault }
{
    match fault {
        SuperFault::Magic => "Magic",
        SuperFault::Major => "Major",
        SuperFault::MaxDev => "MaxDev",
        SuperFault::Checksum => "Checksum",
        SuperFault::SuperOffset => "SuperOffset",
        SuperFault::Feature(_) => "Feature",
        SuperFault::Level => "Level",
        SuperFault::RaidDisks => "RaidDisks",
        SuperFault::NoMemory => "NoMemory",
    }
}

/// Whether a fault is seen in the bytes of a superblock, whatever others stand there. That of the checksum can't be where
/// the roles that it covers go past the bytes.
pub fn super_fault_stands(bytes: &[u8; 4096], fault: SuperFault) -> bool
    ensures value { result ≡ super_fault_stands bytes.now fault }
    ensures meaning { (result ≡ true) ↔ IsSuperFaultSeen bytes.now fault }
{
    match fault {
        SuperFault::Magic => u32_at(bytes, 0) != MAGIC,
        SuperFault::Major => u32_at(bytes, 4) != MAJOR_VERSION,
        SuperFault::MaxDev => u32_at(bytes, 220) > MAX_ROLES,
        SuperFault::Checksum => {
            let max_dev = u32_at(bytes, 220);
            max_dev <= MAX_ROLES && u32_at(bytes, 216) != checksum(bytes, max_dev)
        }
        SuperFault::SuperOffset => u64_at(bytes, 144) != SUPER_SECTOR,
        SuperFault::Feature(bits) => { bits == unsupported_features(bytes) && bits != 0 }
        SuperFault::Level => u32_at(bytes, 72) != LEVEL,
        SuperFault::RaidDisks => {
            let raid_disks = u32_at(bytes, 92);
            raid_disks == 0 || raid_disks > MAX_RAID_DISKS
        }
        SuperFault::NoMemory => false,
    }
}
