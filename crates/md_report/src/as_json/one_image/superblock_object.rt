// The object of a superblock.
ghost use Rattle.std.specs.Prelude.{◌≡◌, codes};
ghost use Rattle.json.specs.Print.{quoted};
ghost use Rattle.serde_json.specs.Written.{compact_text};
ghost use Rattle.md_examine.specs.Lines.{hex8_text};
ghost use Rattle.md_streams.specs.Sink.{PutsOrFails};
ghost use Rattle.md_examine.specs.SuperblockReport.{array_state};
ghost use Rattle.md_report.specs.AsJson.Objects.{later_text, object_line, next_text, signed};
ghost use Rattle.md_report.specs.AsJson.OneImage.SuperblockObject.{array_fields, bitmap_value, device_fields, log_object, log_value, role_of_device, place_fields, recovery_value, role_value, role_word, size_fields, state_fields, superblock_object};

use crate::as_json::values::{
    close, next_cleanness, next_key, next_name, next_null, next_number, next_signed, next_text,
    next_uuid, open, open_number,
};
use md_examine::{hex_digits, state_letters};
use md_streams::{Sink, SinkFault};
use md_super::{FAULTY, FEATURE_BITMAP_OFFSET, FEATURE_RECOVERY_OFFSET, Superblock};

// The low 40 bits of a time.
const SECONDS: u64 = 1 << 40;

/// Writes a superblock as an object, alone in its line. It takes no memory, and fails only where the
/// sink has failed.
pub fn superblock_json<S: Sink>(out: &mut S, v: &Superblock) -> Result<(), SinkFault>
    ensures { PutsOrFails S.contents S.failed out.old out.new
        (object_line (superblock_object v.now)) result }
{
    open(out, "examine")?;
    array(out, v)?;
    sizes(out, v)?;
    device(out, v)?;
    places(out, v)?;
    state(out, v)?;
    close(out)?;
    Ok(())
}

fn array<S: Sink>(out: &mut S, v: &Superblock) -> Result<(), SinkFault>
    ensures { PutsOrFails S.contents S.failed out.old out.new (later_text (array_fields v.now)) result }
{
    next_text(out, "magic", b"a92b4efc")?;
    next_text(out, "version", b"1.2")?;
    next_number(out, "feature_map", v.feature_map)?;
    next_uuid(out, "array_uuid", &v.set_uuid)?;
    next_name(out, "name", &v.set_name)?;
    next_number(out, "creation_time", v.ctime % SECONDS)?;
    Ok(())
}

fn sizes<S: Sink>(out: &mut S, v: &Superblock) -> Result<(), SinkFault>
    ensures { PutsOrFails S.contents S.failed out.old out.new (later_text (size_fields v.now)) result }
{
    next_text(out, "raid_level", b"raid1")?;
    next_number(out, "raid_devices", v.raid_disks)?;
    next_number(out, "used_dev_size", v.size)?;
    next_number(out, "avail_dev_size", v.data_size)?;
    next_number(out, "data_offset", v.data_offset)?;
    next_number(out, "super_offset", v.super_offset)?;
    Ok(())
}

fn device<S: Sink>(out: &mut S, v: &Superblock) -> Result<(), SinkFault>
    ensures { PutsOrFails S.contents S.failed out.old out.new (later_text (device_fields v.now)) result }
{
    recovery(out, v)?;
    next_number(out, "device_number", v.dev_number)?;
    device_role(out, v)?;
    role(out, v)?;
    next_uuid(out, "device_uuid", &v.device_uuid)?;
    next_number(out, "device_flags", v.devflags)?;
    Ok(())
}

fn places<S: Sink>(out: &mut S, v: &Superblock) -> Result<(), SinkFault>
    ensures { PutsOrFails S.contents S.failed out.old out.new (later_text (place_fields v.now)) result }
{
    bitmap(out, v)?;
    bad_block_log(out, v)?;
    Ok(())
}

fn state<S: Sink>(out: &mut S, v: &Superblock) -> Result<(), SinkFault>
    ensures { PutsOrFails S.contents S.failed out.old out.new (later_text (state_fields v.now)) result }
{
    next_number(out, "update_time", v.utime % SECONDS)?;
    next_number(out, "events", v.events)?;
    next_cleanness(out, v)?;
    checksum(out, v)?;
    roles(out, v)?;
    Ok(())
}

fn recovery<S: Sink>(out: &mut S, v: &Superblock) -> Result<(), SinkFault>
    ensures { PutsOrFails S.contents S.failed out.old out.new
        (next_text (codes "recovery_offset") (compact_text (recovery_value v.now))) result }
{
    if v.feature_map & FEATURE_RECOVERY_OFFSET == 0 {
        next_null(out, "recovery_offset")
    } else {
        next_number(out, "recovery_offset", v.recovery_offset)
    }
}

fn checksum<S: Sink>(out: &mut S, v: &Superblock) -> Result<(), SinkFault>
    ensures { PutsOrFails S.contents S.failed out.old out.new
        (next_text (codes "checksum") (quoted (hex8_text v.now.sb_csum))) result }
{
    next_text(out, "checksum", &hex_digits(v.sb_csum))
}

fn device_role<S: Sink>(out: &mut S, v: &Superblock) -> Result<(), SinkFault>
    ensures { PutsOrFails S.contents S.failed out.old out.new
        (next_text (codes "device_role") (quoted (role_word (role_of_device v.now) v.now.raid_disks))) result }
{
    next_text(out, "device_role", role_word(v).as_bytes())
}

fn role_word(v: &Superblock) -> &'static str
    ensures { result.now ≡ role_word (role_of_device v.now) v.now.raid_disks }
{
    let role = v.role_of(v.dev_number);
    if role == FAULTY {
        "faulty"
    } else if u32::from(role) < v.raid_disks {
        "active"
    } else {
        "spare"
    }
}

fn role<S: Sink>(out: &mut S, v: &Superblock) -> Result<(), SinkFault>
    ensures { PutsOrFails S.contents S.failed out.old out.new
        (next_text (codes "role") (compact_text (role_value (role_of_device v.now) v.now.raid_disks))) result }
{
    let role = v.role_of(v.dev_number);
    if u32::from(role) < v.raid_disks {
        next_number(out, "role", role)
    } else {
        next_null(out, "role")
    }
}

fn bitmap<S: Sink>(out: &mut S, v: &Superblock) -> Result<(), SinkFault>
    ensures { PutsOrFails S.contents S.failed out.old out.new
        (next_text (codes "internal_bitmap") (compact_text (bitmap_value v.now))) result }
{
    if v.feature_map & FEATURE_BITMAP_OFFSET == 0 {
        next_null(out, "internal_bitmap")
    } else {
        next_signed(out, "internal_bitmap", v.bitmap_offset)
    }
}

fn bad_block_log<S: Sink>(out: &mut S, v: &Superblock) -> Result<(), SinkFault>
    ensures { PutsOrFails S.contents S.failed out.old out.new
        (next_text (codes "bad_block_log") (compact_text (log_value v.now))) result }
{
    if v.has_bad_block_log() {
        next_log(out, v)
    } else {
        next_null(out, "bad_block_log")
    }
}

fn next_log<S: Sink>(out: &mut S, v: &Superblock) -> Result<(), SinkFault>
    ensures { PutsOrFails S.contents S.failed out.old out.new
        (next_text (codes "bad_block_log") (compact_text (log_object v.now))) result }
{
    next_key(out, "bad_block_log")?;
    log(out, v)?;
    Ok(())
}

fn log<S: Sink>(out: &mut S, v: &Superblock) -> Result<(), SinkFault>
    ensures { PutsOrFails S.contents S.failed out.old out.new (compact_text (log_object v.now)) result }
{
    open_number(out, "entries", 64 * v.bblog_size as u32)?;
    log_place(out, v)?;
    out.put(b"}")?;
    Ok(())
}

fn log_place<S: Sink>(out: &mut S, v: &Superblock) -> Result<(), SinkFault>
    ensures { PutsOrFails S.contents S.failed out.old out.new
        (next_text (codes "offset") (compact_text (signed v.now.bblog_offset))) result }
{
    next_signed(out, "offset", v.bblog_offset)
}

fn roles<S: Sink>(out: &mut S, v: &Superblock) -> Result<(), SinkFault>
    ensures { PutsOrFails S.contents S.failed out.old out.new
        (next_text (codes "array_state") (quoted (array_state v.now.roles v.now.raid_disks))) result }
{
    let letters = state_letters(&v.roles);
    next_text(out, "array_state", &letters[..v.raid_disks as usize])
}
