// The member's bad block log, which has to stand as it stood.
ghost use Rattle.std.specs.Prelude.{◌≡◌, ◌*◌, ◌<◌, ◌≤◌, ◌^◌, IfOk, IfSome, OnOk, length, true};
ghost use Rattle.md_device.specs.Device.{held};
ghost use Rattle.md_members.specs.Members.{reads_log};
ghost use Rattle.md_members.specs.Reading.{LogStartsAt};
ghost use Rattle.md_read_commands.specs.StandIn.{HoldsLog};

use md_device::Device;
use md_refusals::DataOfFault;
use md_super::{FEATURE_BAD_BLOCKS, SUPER_SECTOR, Superblock};
use std::alloc::{AllocError, Global};

/// The bytes of the log, where a superblock says that it has entries.
pub(crate) fn log_of<D: Device>(
    alloc: Global,
    device: &mut D,
    made: &Superblock,
) -> Result<Vec<u8>, DataOfFault>
    ensures kept { D.content device.new ≡ D.content device.old }
    ensures honest { D.honest device.new ≡ D.honest device.old }
    ensures counted { D.failures device.old ≤ D.failures device.new }
    ensures log { IfOk result (λ log. D.honest device.old ≡ true → HoldsLog made.now
        (D.content device.old) log.items) }
{
    if !has_entries(made) {
        return Ok(Vec::new(alloc));
    }
    let Some(start) = start_of_log(made) else {
        return Err(DataOfFault::LogUnread);
    };
    read_bytes(alloc, device, start, made.bblog_size)
}

/// Whether the log stands as these bytes, where a superblock says that it has entries.
pub(crate) fn check_log<D: Device>(
    alloc: Global,
    device: &mut D,
    made: &Superblock,
    log: &[u8],
) -> Result<(), DataOfFault>
    ensures kept { D.content device.new ≡ D.content device.old }
    ensures honest { D.honest device.new ≡ D.honest device.old }
    ensures counted { D.failures device.old ≤ D.failures device.new }
    ensures log { OnOk result (D.honest device.old ≡ true → HoldsLog made.now
        (D.content device.old) log.now) }
{
    let again = log_of(alloc, device, made)?;
    if again.as_slice() != log {
        return Err(DataOfFault::LogUnread);
    }
    Ok(())
}

// Whether there is a log with entries by a superblock.
fn has_entries(made: &Superblock) -> bool
    ensures { result ≡ reads_log made.now }
{
    made.feature_map & FEATURE_BAD_BLOCKS != 0 && made.has_bad_block_log()
}

// The sector where the log starts, where that is none before the device's first.
fn start_of_log(made: &Superblock) -> Option<u64>
    ensures { IfSome result (λ start. LogStartsAt made.now start × (start < 2 ^ 32)) }
{
    let start = SUPER_SECTOR as i64 + i64::from(made.bblog_offset);
    if start < 0 {
        return None;
    }
    Some(start as u64)
}

// The bytes of so many sectors from there on, where all can be read.
fn read_bytes<D: Device>(
    alloc: Global,
    device: &mut D,
    start: u64,
    sectors: u16,
) -> Result<Vec<u8>, DataOfFault>
    requires { start < 2 ^ 32 }
    ensures kept { D.content device.new ≡ D.content device.old }
    ensures honest { D.honest device.new ≡ D.honest device.old }
    ensures counted { D.failures device.old ≤ D.failures device.new }
    ensures read { IfOk result
        (λ bytes. D.honest device.old ≡ true → bytes.items ≡ held (D.content device.old) start
        (512 * sectors)) }
{
    if start + u64::from(sectors) > device.sectors() {
        return Err(DataOfFault::LogUnread);
    }
    let Ok(mut bytes) = zeros(alloc, 512 * usize::from(sectors)) else {
        return Err(DataOfFault::NoMemory);
    };
    match device.read(start, &mut bytes) {
        Ok(()) => Ok(bytes),
        Err(_) => Err(DataOfFault::LogUnread),
    }
}

fn zeros(alloc: Global, len: usize) -> Result<Vec<u8>, AllocError>
    ensures { IfOk result (λ bytes. length bytes.items ≡ len) }
{
    vec![in alloc; 0; len]
}
