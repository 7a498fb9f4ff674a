// The report of a superblock.
ghost use Rattle.std.specs.Prelude.{◌≡◌, codes};
ghost use Rattle.md_streams.specs.Sink.{PutsOrFails};
ghost use Rattle.md_examine.specs.Lines.{line_text, column};
ghost use Rattle.md_examine.specs.SuperblockReport.{array_lines, size_lines, device_lines, state_lines, examine_text, recovery_text, own_role_text, bitmap_text, log_text, state_text, state_letter, array_state};

use crate::lines::{
    decimal_line, hex_line, hex8_line, line, log_line, name_line, offset_line, sectors_line,
    two_part_line, uuid_line,
};
use itoa::Buffer;
use md_streams::{Sink, SinkFault};
use md_super::{
    CLEAN_OFFSET, FAULTY, FEATURE_BITMAP_OFFSET, FEATURE_RECOVERY_OFFSET, Roles, Superblock,
};

// The low 40 bits of a time.
const SECONDS: u64 = 1 << 40;

/// Writes the report of a superblock, 24 labelled lines. It takes no memory, and fails only where
/// the sink has failed.
pub fn examine<S: Sink>(out: &mut S, v: &Superblock) -> Result<(), SinkFault>
    ensures { PutsOrFails S.contents S.failed out.old out.new (examine_text v.now) result }
{
    array(out, v)?;
    sizes(out, v)?;
    device(out, v)?;
    state(out, v)?;
    Ok(())
}

fn array<S: Sink>(out: &mut S, v: &Superblock) -> Result<(), SinkFault>
    ensures { PutsOrFails S.contents S.failed out.old out.new (array_lines v.now) result }
{
    line(out, "Magic          ", b"a92b4efc")?;
    line(out, "Version        ", b"1.2")?;
    hex_line(out, "Feature Map    ", b"0x", v.feature_map)?;
    uuid_line(out, "Array UUID     ", &v.set_uuid)?;
    name_line(out, "Name           ", &v.set_name)?;
    decimal_line(out, "Creation Time  ", v.ctime % SECONDS)?;
    Ok(())
}

fn sizes<S: Sink>(out: &mut S, v: &Superblock) -> Result<(), SinkFault>
    ensures { PutsOrFails S.contents S.failed out.old out.new (size_lines v.now) result }
{
    line(out, "Raid Level     ", b"raid1")?;
    decimal_line(out, "Raid Devices   ", v.raid_disks)?;
    sectors_line(out, "Used Dev Size  ", v.size)?;
    sectors_line(out, "Avail Dev Size ", v.data_size)?;
    sectors_line(out, "Data Offset    ", v.data_offset)?;
    sectors_line(out, "Super Offset   ", v.super_offset)?;
    Ok(())
}

fn device<S: Sink>(out: &mut S, v: &Superblock) -> Result<(), SinkFault>
    ensures { PutsOrFails S.contents S.failed out.old out.new (device_lines v.now) result }
{
    recovery(out, v)?;
    decimal_line(out, "Device Number  ", v.dev_number)?;
    own_role(out, v)?;
    uuid_line(out, "Device UUID    ", &v.device_uuid)?;
    hex_line(out, "Device Flags   ", b"0x", v.devflags as u32)?;
    bitmap(out, v)?;
    Ok(())
}

fn state<S: Sink>(out: &mut S, v: &Superblock) -> Result<(), SinkFault>
    ensures { PutsOrFails S.contents S.failed out.old out.new (state_lines v.now) result }
{
    bad_block_log(out, v)?;
    decimal_line(out, "Update Time    ", v.utime % SECONDS)?;
    decimal_line(out, "Events         ", v.events)?;
    cleanness_line(out, v)?;
    hex8_line(out, "Checksum       ", v.sb_csum)?;
    roles(out, v)?;
    Ok(())
}

fn recovery<S: Sink>(out: &mut S, v: &Superblock) -> Result<(), SinkFault>
    ensures { PutsOrFails S.contents S.failed out.old out.new (line_text (column (codes "Recovery Offset")) (recovery_text v.now)) result }
{
    if v.feature_map & FEATURE_RECOVERY_OFFSET == 0 {
        line(out, "Recovery Offset", b"none")
    } else {
        sectors_line(out, "Recovery Offset", v.recovery_offset)
    }
}

fn own_role<S: Sink>(out: &mut S, v: &Superblock) -> Result<(), SinkFault>
    ensures { PutsOrFails S.contents S.failed out.old out.new (line_text (column (codes "Device Role")) (own_role_text v.now)) result }
{
    let role = v.role_of(v.dev_number);
    if role == FAULTY {
        line(out, "Device Role    ", b"faulty")
    } else if u32::from(role) < v.raid_disks {
        let mut buffer = Buffer::new();
        let number = buffer.format(role);
        two_part_line(out, "Device Role    ", b"active ", number.as_bytes())
    } else {
        line(out, "Device Role    ", b"spare")
    }
}

fn bitmap<S: Sink>(out: &mut S, v: &Superblock) -> Result<(), SinkFault>
    ensures { PutsOrFails S.contents S.failed out.old out.new (line_text (column (codes "Internal Bitmap")) (bitmap_text v.now)) result }
{
    if v.feature_map & FEATURE_BITMAP_OFFSET == 0 {
        line(out, "Internal Bitmap", b"none")
    } else {
        offset_line(out, "Internal Bitmap", v.bitmap_offset)
    }
}

fn bad_block_log<S: Sink>(out: &mut S, v: &Superblock) -> Result<(), SinkFault>
    ensures { PutsOrFails S.contents S.failed out.old out.new (line_text (column (codes "Bad Block Log")) (log_text v.now)) result }
{
    if v.has_bad_block_log() {
        let entries = 64 * v.bblog_size as u32;
        log_line(out, "Bad Block Log  ", entries, v.bblog_offset)
    } else {
        line(out, "Bad Block Log  ", b"none")
    }
}

fn cleanness_line<S: Sink>(out: &mut S, v: &Superblock) -> Result<(), SinkFault>
    ensures { PutsOrFails S.contents S.failed out.old out.new (line_text (column (codes "State")) (state_text v.now)) result }
{
    line(out, "State          ", cleanness(v).as_bytes())
}

/// Whether the array was stopped in order, or is not known to have been.
pub fn cleanness(v: &Superblock) -> &'static str
    ensures { result.now ≡ state_text v.now }
{
    if v.resync_offset == CLEAN_OFFSET {
        "clean"
    } else {
        "active"
    }
}

fn roles<S: Sink>(out: &mut S, v: &Superblock) -> Result<(), SinkFault>
    ensures { PutsOrFails S.contents S.failed out.old out.new (line_text (column (codes "Array State")) (array_state v.now.roles v.now.raid_disks)) result }
{
    let letters = state_letters(&v.roles);
    line(out, "Array State    ", &letters[..v.raid_disks as usize])
}

/// A letter for each role that an array can have: whether some device has it.
pub fn state_letters(roles: &Roles) -> [u8; 32]
    ensures { result ≡ array_state roles.now 32 }
{
    std::array::from_fn(|r| letter(roles, r as u16))
}

fn letter(roles: &Roles, role: u16) -> u8
    ensures { result ≡ state_letter roles.now role }
{
    if roles.as_slice().contains(&role) {
        b'A'
    } else {
        b'.'
    }
}
