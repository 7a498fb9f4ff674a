// A superblock as it stands, though it may be none.
ghost use Rattle.std.specs.Prelude.{◌<◌, ◌≤◌};
ghost use Rattle.std.specs.List.{flat_map};
ghost use Rattle.md_streams.specs.Sink.{PutsOrFails};
ghost use Rattle.md_raw_reports.specs.SuperFields.{all_text, fields_text, found_text, place_line, role_line, role_line_text, roles_there, computed_line, shown_text, unread_line_text, unreadable_line};

use crate::fields::{Field, Kind, field_lines};
use crate::super_faults::{roles_read_in, super_fault_lines};
use itoa::Buffer;
use md_examine::{hex8_line, line, sectors_line, three_part_line};
use md_format::{u16_at, u32_at};
use md_streams::{Sink, SinkFault};
use md_super::{SPARE, SUPER_SECTOR, checksum};
use uuid::Uuid;

/// What was found at another place of a device where a superblock of a set may stand. Places are in sectors.
#[derive(Clone, Copy)]
pub enum Found {
    /// No superblock.
    Nothing,
    /// The place could not be read.
    Unreadable(u64),
    /// The magic number and the major version of a superblock, and this identifier of its array.
    Superblock(u64, Uuid),
}

/// The sectors of a superblock.
const SUPER_SECTORS: u32 = 8;

const SECTORS: &str = " sectors";

const FROM_SUPER: &str = " sectors from superblock";

/// Every field of `struct mdp_superblock_1` of `md_p.h` before the roles but for the padding, in its order; the checksum is last.
pub const SUPER_FIELDS: [Field; 34] = [
    Field {
        label: "Magic          ",
        name: "magic",
        kind: Kind::HexDigits,
        at: 0,
        unit: "",
    },
    Field {
        label: "Major Version  ",
        name: "major_version",
        kind: Kind::Word,
        at: 4,
        unit: "",
    },
    Field {
        label: "Feature Map    ",
        name: "feature_map",
        kind: Kind::Hex,
        at: 8,
        unit: "",
    },
    Field {
        label: "Array UUID     ",
        name: "array_uuid",
        kind: Kind::Id,
        at: 16,
        unit: "",
    },
    Field {
        label: "Name           ",
        name: "name",
        kind: Kind::Name,
        at: 32,
        unit: "",
    },
    Field {
        label: "Creation Time  ",
        name: "creation_time",
        kind: Kind::Time,
        at: 64,
        unit: "",
    },
    Field {
        label: "Raid Level     ",
        name: "raid_level",
        kind: Kind::Word,
        at: 72,
        unit: "",
    },
    Field {
        label: "Layout         ",
        name: "layout",
        kind: Kind::Word,
        at: 76,
        unit: "",
    },
    Field {
        label: "Used Dev Size  ",
        name: "used_dev_size",
        kind: Kind::Long,
        at: 80,
        unit: SECTORS,
    },
    Field {
        label: "Chunk Size     ",
        name: "chunk_size",
        kind: Kind::Word,
        at: 88,
        unit: SECTORS,
    },
    Field {
        label: "Raid Devices   ",
        name: "raid_devices",
        kind: Kind::Word,
        at: 92,
        unit: "",
    },
    Field {
        label: "Bitmap Offset  ",
        name: "bitmap_offset",
        kind: Kind::Signed,
        at: 96,
        unit: FROM_SUPER,
    },
    Field {
        label: "New Level      ",
        name: "new_level",
        kind: Kind::Word,
        at: 100,
        unit: "",
    },
    Field {
        label: "Reshape Place  ",
        name: "reshape_place",
        kind: Kind::Long,
        at: 104,
        unit: SECTORS,
    },
    Field {
        label: "Delta Devices  ",
        name: "delta_devices",
        kind: Kind::Signed,
        at: 112,
        unit: "",
    },
    Field {
        label: "New Layout     ",
        name: "new_layout",
        kind: Kind::Word,
        at: 116,
        unit: "",
    },
    Field {
        label: "New Chunk Size ",
        name: "new_chunk_size",
        kind: Kind::Word,
        at: 120,
        unit: SECTORS,
    },
    Field {
        label: "New Offset     ",
        name: "new_offset",
        kind: Kind::Signed,
        at: 124,
        unit: SECTORS,
    },
    Field {
        label: "Data Offset    ",
        name: "data_offset",
        kind: Kind::Long,
        at: 128,
        unit: SECTORS,
    },
    Field {
        label: "Avail Dev Size ",
        name: "avail_dev_size",
        kind: Kind::Long,
        at: 136,
        unit: SECTORS,
    },
    Field {
        label: "Super Offset   ",
        name: "super_offset",
        kind: Kind::Long,
        at: 144,
        unit: SECTORS,
    },
    Field {
        label: "Recovery Offset",
        name: "recovery_offset",
        kind: Kind::Long,
        at: 152,
        unit: SECTORS,
    },
    Field {
        label: "Device Number  ",
        name: "device_number",
        kind: Kind::Word,
        at: 160,
        unit: "",
    },
    Field {
        label: "Corrected Reads",
        name: "corrected_reads",
        kind: Kind::Word,
        at: 164,
        unit: "",
    },
    Field {
        label: "Device UUID    ",
        name: "device_uuid",
        kind: Kind::Id,
        at: 168,
        unit: "",
    },
    Field {
        label: "Device Flags   ",
        name: "device_flags",
        kind: Kind::HexByte,
        at: 184,
        unit: "",
    },
    Field {
        label: "Log Shift      ",
        name: "log_shift",
        kind: Kind::Byte,
        at: 185,
        unit: "",
    },
    Field {
        label: "Log Size       ",
        name: "log_size",
        kind: Kind::Half,
        at: 186,
        unit: SECTORS,
    },
    Field {
        label: "Log Offset     ",
        name: "log_offset",
        kind: Kind::Signed,
        at: 188,
        unit: FROM_SUPER,
    },
    Field {
        label: "Update Time    ",
        name: "update_time",
        kind: Kind::Time,
        at: 192,
        unit: "",
    },
    Field {
        label: "Events         ",
        name: "events",
        kind: Kind::Long,
        at: 200,
        unit: "",
    },
    Field {
        label: "Resync Offset  ",
        name: "resync_offset",
        kind: Kind::Long,
        at: 208,
        unit: SECTORS,
    },
    Field {
        label: "Role Count     ",
        name: "role_count",
        kind: Kind::Word,
        at: 220,
        unit: "",
    },
    Field {
        label: "Checksum       ",
        name: "checksum",
        kind: Kind::HexDigits,
        at: 216,
        unit: "",
    },
];

/// Writes the report of a superblock as it stands, though it may be refused, and though only the first so many of its sectors
/// could be read: the first that could not, a line for each fault that stands, its fields, the checksum that its bytes have, a
/// line for each role that is not that of a spare, and what was found at other places. It takes no memory, and fails only where
/// the sink has failed.
pub fn examine_all<S: Sink>(
    out: &mut S,
    read: u32,
    bytes: &[u8; 4096],
    found: &[Found],
) -> Result<(), SinkFault>
    requires { read ≤ 8 }
    ensures { PutsOrFails S.contents S.failed out.old out.new (all_text read bytes.now found.now) result }
{
    unread_line(out, read)?;
    super_fault_lines(out, "Fault          ", read, bytes)?;
    shown_part(out, read, bytes)?;
    found_lines(out, found)?;
    Ok(())
}

/// The first sector of a superblock that could not be read, if one could not.
pub(crate) fn unread_line<S: Sink>(out: &mut S, read: u32) -> Result<(), SinkFault>
    ensures { PutsOrFails S.contents S.failed out.old out.new (unread_line_text read) result }
{
    if read < SUPER_SECTORS {
        unreadable_line(out, SUPER_SECTOR + u64::from(read))
    } else {
        Ok(())
    }
}

/// A sector that could not be read.
pub(crate) fn unreadable_line<S: Sink>(out: &mut S, sector: u64) -> Result<(), SinkFault>
    ensures { PutsOrFails S.contents S.failed out.old out.new (unreadable_line sector) result }
{
    sectors_line(out, "Unreadable At  ", sector)
}

#[tactic(auto, unfolding(crate::specs::SuperFields::shown_text))]
fn shown_part<S: Sink>(out: &mut S, read: u32, bytes: &[u8; 4096]) -> Result<(), SinkFault>
    requires { read ≤ 8 }
    ensures { PutsOrFails S.contents S.failed out.old out.new (shown_text read bytes.now) result }
{
    if read == 0 {
        return Ok(());
    }
    shown_fields(out, read, bytes)
}

fn shown_fields<S: Sink>(out: &mut S, read: u32, bytes: &[u8; 4096]) -> Result<(), SinkFault>
    requires some { 0 < read }
    requires few { read ≤ 8 }
    ensures { PutsOrFails S.contents S.failed out.old out.new (fields_text read bytes.now) result }
{
    field_lines(out, bytes, &SUPER_FIELDS)?;
    computed_sum(out, read, bytes)?;
    role_lines(out, read, bytes)?;
    Ok(())
}

// The checksum that the bytes have, where these sectors hold all that it covers.
fn computed_sum<S: Sink>(out: &mut S, read: u32, bytes: &[u8; 4096]) -> Result<(), SinkFault>
    requires some { 0 < read }
    requires few { read ≤ 8 }
    ensures { PutsOrFails S.contents S.failed out.old out.new (computed_line read bytes.now) result }
{
    let max_dev = u32_at(bytes, 220);
    if max_dev <= roles_read_in(read) {
        hex8_line(out, "Computed       ", checksum(bytes, max_dev))
    } else {
        line(out, "Computed       ", b"unknown")
    }
}

// Each role for which these sectors have room.
fn role_lines<S: Sink>(out: &mut S, read: u32, bytes: &[u8; 4096]) -> Result<(), SinkFault>
    requires some { 0 < read }
    requires few { read ≤ 8 }
    ensures { PutsOrFails S.contents S.failed out.old out.new (flat_map (role_line_text bytes.now) (roles_there read bytes.now)) result }
{
    let count = u32_at(bytes, 220).min(roles_read_in(read));
    for number in 0..count {
        role(out, bytes, number)?;
    }
    Ok(())
}

fn role<S: Sink>(out: &mut S, bytes: &[u8; 4096], number: u32) -> Result<(), SinkFault>
    requires { number < 1920 }
    ensures { PutsOrFails S.contents S.failed out.old out.new (role_line_text bytes.now number) result }
{
    let role = u16_at(bytes, 256 + 2 * number as usize);
    if role == SPARE {
        Ok(())
    } else {
        role_of(out, role, number)
    }
}

fn role_of<S: Sink>(out: &mut S, role: u16, number: u32) -> Result<(), SinkFault>
    ensures { PutsOrFails S.contents S.failed out.old out.new (role_line role number) result }
{
    let mut role_buffer = Buffer::new();
    let mut number_buffer = Buffer::new();
    let role = role_buffer.format(role).as_bytes();
    let number = number_buffer.format(number).as_bytes();
    three_part_line(out, "Role           ", role, b" of device ", number)
}

fn found_lines<S: Sink>(out: &mut S, found: &[Found]) -> Result<(), SinkFault>
    ensures { PutsOrFails S.contents S.failed out.old out.new (flat_map found_text found.now) result }
{
    for it in found {
        found_line(out, it)?;
    }
    Ok(())
}

#[tactic(auto, unfolding(crate::specs::SuperFields::found_text))]
fn found_line<S: Sink>(out: &mut S, found: &Found) -> Result<(), SinkFault>
    ensures { PutsOrFails S.contents S.failed out.old out.new (found_text found.now) result }
{
    match found {
        Found::Nothing => Ok(()),
        Found::Unreadable(sector) => unreadable_line(out, *sector),
        Found::Superblock(sector, id) => superblock_at(out, *sector, id),
    }
}

#[tactic(auto, unfolding(crate::specs::SuperFields::found_text))]
fn superblock_at<S: Sink>(out: &mut S, sector: u64, id: &Uuid) -> Result<(), SinkFault>
    ensures { PutsOrFails S.contents S.failed out.old out.new (found_text (Found.Superblock sector id.now)) result }
{
    let mut buffer = Uuid::encode_buffer();
    let text = id.hyphenated().encode_lower(&mut buffer);
    array_at_sector(out, sector, text.as_bytes())
}

fn array_at_sector<S: Sink>(out: &mut S, sector: u64, id: &[u8]) -> Result<(), SinkFault>
    ensures { PutsOrFails S.contents S.failed out.old out.new (place_line sector id.now) result }
{
    let mut buffer = Buffer::new();
    let sector = buffer.format(sector).as_bytes();
    three_part_line(out, "Superblock At  ", sector, b" sectors, of array ", id)
}
