// What can be read of the member's own superblock and bitmap.
ghost use Rattle.std.specs.Prelude.{◌≡◌, ◌↔◌, ◌+◌, ◌*◌, ◌<◌, ◌≤◌, IfOk, MatchOption, OnOk, false, length, true, ℕ};
ghost use Rattle.md_format.specs.Fields.{number_at};
ghost use Rattle.md_device.specs.Device.{held};
ghost use Rattle.md_members.specs.Reading.{BitmapStartsAt};
ghost use Rattle.md_state.specs.View.{disk_of};
ghost use Rattle.md_read_commands.specs.StandIn.{BearsRole, FitsOrFailed, FirstSectorFits, HeaderFitsOrFailed, HeaderTells, IsLostBy, IsOwnSuperblock, IsUnreadMember, LacksWhole, ListsNothing, magic};

use md_assembly::state_of;
use md_bitmap::BitmapHeader;
use md_device::Device;
use md_format::{array_at, u16_at, u32_at, u64_at, uuid_at};
use md_members::{MemberFault, read_member, read_super};
use md_refusals::DataOfFault;
use md_super::{
    FEATURE_BAD_BLOCKS, FEATURE_RECOVERY_OFFSET, MAGIC, SUPER_SECTOR, SuperFault, Superblock,
};
use std::alloc::Global;

// The roles that stand in the first sector of a superblock.
const ROLES_IN_SECTOR: u32 = 128;

/// What is known of the member by its own superblock.
#[derive(Drop)]
pub(crate) enum Own {
    /// It can be read, and the bitmap or the log can't.
    Read(Superblock),
    /// It can't be read. Its log may have entries, as far as it tells.
    Lost { may_list: bool },
}

/// The member's own superblock, where it can be read and its bitmap or its log can't. A member that can be read whole is refused,
/// and so is one that tells of another device, of one that is not in sync, or of data elsewhere, by whatever can be read of it.
pub(crate) fn own_of<D: Device>(
    alloc: Global,
    device: &mut D,
    freshest: &Superblock,
    number: u32,
) -> Result<Own, DataOfFault>
    ensures kept { D.content device.new ≡ D.content device.old }
    ensures honest { D.honest device.new ≡ D.honest device.old }
    ensures counted { D.failures device.old ≤ D.failures device.new }
    ensures lacks { IfOk result
        (λ own. LacksWhole freshest.now number own (disk_of D.Device device.old)
        (disk_of D.Device device.new)) }
{
    match read_super(alloc, device) {
        Ok(own) => {
            check_unread(alloc, device)?;
            check_own(&own, freshest, number)?;
            Ok(Own::Read(own))
        }
        Err(fault) => {
            check_lost(fault)?;
            let may_list = check_front_of(device, freshest, number)?;
            check_header_of(device, freshest)?;
            Ok(Own::Lost { may_list })
        }
    }
}

// Whether a superblock that was not read for this fault counts as one that can't be read.
fn check_lost(fault: MemberFault) -> Result<(), DataOfFault>
    ensures { OnOk result (IsLostBy fault) }
{
    match fault {
        MemberFault::ReadFault
        | MemberFault::Super(SuperFault::Magic)
        | MemberFault::Super(SuperFault::Checksum) => Ok(()),
        MemberFault::TooShort => Err(DataOfFault::DataPastEnd),
        MemberFault::NoMemory => Err(DataOfFault::NoMemory),
        _ => Err(DataOfFault::HasSuperblock),
    }
}

// Whether a member whose superblock can be read can't be read whole.
fn check_unread<D: Device>(alloc: Global, device: &mut D) -> Result<(), DataOfFault>
    ensures kept { D.content device.new ≡ D.content device.old }
    ensures honest { D.honest device.new ≡ D.honest device.old }
    ensures counted { D.failures device.old ≤ D.failures device.new }
    ensures unread { OnOk result (IsUnreadMember (disk_of D.Device device.old)
        (disk_of D.Device device.new)) }
{
    match read_member(alloc, device) {
        Ok(_) => Err(DataOfFault::HasSuperblock),
        Err(MemberFault::NoMemory) => Err(DataOfFault::NoMemory),
        Err(_) => Ok(()),
    }
}

// Whether a superblock is of the device with this number, which is in sync.
fn check_own(own: &Superblock, freshest: &Superblock, number: u32) -> Result<(), DataOfFault>
    ensures { OnOk result (IsOwnSuperblock freshest.now number own.now) }
{
    if own.set_uuid != freshest.set_uuid || own.dev_number != number {
        return Err(DataOfFault::HasSuperblock);
    }
    if !state_of(freshest, own).is_in_sync() || own.events > freshest.events {
        return Err(DataOfFault::NumberNotInSync);
    }
    Ok(())
}

// Looks at the first sector of the superblock, which may be readable where another is not. Says whether its log may have entries.
fn check_front_of<D: Device>(
    device: &mut D,
    freshest: &Superblock,
    number: u32,
) -> Result<bool, DataOfFault>
    ensures kept { D.content device.new ≡ D.content device.old }
    ensures honest { D.honest device.new ≡ D.honest device.old }
    ensures counted { D.failures device.old ≤ D.failures device.new }
    ensures fits { IfOk result (λ may_list. 512 * 9 ≤ length (D.content device.old)
        → D.honest device.old ≡ true
        → FitsOrFailed freshest.now number may_list (D.content device.old) (D.failures device.old)
        (D.failures device.new)) }
{
    let mut sector = [0; 512];
    if !read_at(device, SUPER_SECTOR, &mut sector) {
        return Ok(true);
    }
    check_front(&sector, freshest, number)?;
    Ok(may_list(&sector))
}

// Looks at the first sector of a bitmap where the others have theirs.
fn check_header_of<D: Device>(device: &mut D, freshest: &Superblock) -> Result<(), DataOfFault>
    ensures kept { D.content device.new ≡ D.content device.old }
    ensures honest { D.honest device.new ≡ D.honest device.old }
    ensures counted { D.failures device.old ≤ D.failures device.new }
    ensures fits { OnOk result (D.honest device.old ≡ true
        → HeaderFitsOrFailed freshest.now (D.content device.old) (D.failures device.old)
        (D.failures device.new)) }
{
    let Some(start) = bitmap_start(freshest) else {
        return Ok(());
    };
    let mut sector = [0; 512];
    if !read_at(device, start, &mut sector) {
        return Ok(());
    }
    check_header(&sector, freshest)?;
    Ok(())
}

// The sector where a bitmap starts by a superblock, unless that would be before the device.
fn bitmap_start(v: &Superblock) -> Option<u64>
    ensures { MatchOption result ((start : ℕ) → BitmapStartsAt v.now start → ⊥) (BitmapStartsAt v.now) }
{
    let start = SUPER_SECTOR as i64 + i64::from(v.bitmap_offset);
    if start < 0 {
        return None;
    }
    Some(start as u64)
}

/// Reads a sector, where there is one and it can be read.
pub(crate) fn read_at<D: Device>(device: &mut D, sector: u64, buf: &mut [u8; 512]) -> bool
    ensures kept { D.content device.new ≡ D.content device.old }
    ensures honest { D.honest device.new ≡ D.honest device.old }
    ensures counted { D.failures device.old ≤ D.failures device.new }
    ensures read { result ≡ true → D.honest device.old ≡ true → buf.new ≡ held
        (D.content device.old) sector 512 }
    ensures failed { result ≡ false → D.honest device.old ≡ true → 512 * sector + 512 ≤ length
        (D.content device.old)
        → D.failures device.old < D.failures device.new }
{
    if sector >= device.sectors() {
        return false;
    }
    match device.read(sector, buf) {
        Ok(()) => true,
        Err(_) => false,
    }
}

// What the first sector of a superblock tells, of which another one can't be read, or the sum is not right.
fn check_front(sector: &[u8; 512], freshest: &Superblock, number: u32) -> Result<(), DataOfFault>
    ensures { OnOk result (number_at 4 0 sector.now ≡ magic
        → FirstSectorFits freshest.now number sector.now) }
{
    if u32_at(sector, 0) != MAGIC {
        return Ok(());
    }
    if uuid_at(sector, 16) != freshest.set_uuid || u32_at(sector, 160) != number {
        return Err(DataOfFault::HasSuperblock);
    }
    if u32_at(sector, 8) & FEATURE_RECOVERY_OFFSET != 0 || !bears_role(sector, freshest, number) {
        return Err(DataOfFault::NumberNotInSync);
    }
    let events = u64_at(sector, 200);
    if events < freshest.events.saturating_sub(1) || events > freshest.events {
        return Err(DataOfFault::NumberNotInSync);
    }
    if u64_at(sector, 80) != freshest.size || u64_at(sector, 128) != freshest.data_offset {
        return Err(DataOfFault::DataElsewhere);
    }
    Ok(())
}

// Whether the first sector of a superblock gives the device with this number the role that it has; those of greater numbers stand
// past it.
fn bears_role(sector: &[u8; 512], freshest: &Superblock, number: u32) -> bool
    ensures { result ≡ true → BearsRole freshest.now number sector.now }
{
    if number >= u32_at(sector, 220) {
        return false;
    }
    if number >= ROLES_IN_SECTOR {
        return true;
    }
    u16_at(sector, 256 + 2 * number as usize) == freshest.role_of(number)
}

// Whether the first sector of a superblock says that its log has entries, or is none of a superblock.
fn may_list(sector: &[u8; 512]) -> bool
    ensures { (result ≡ false) ↔ ListsNothing sector.now }
{
    u32_at(sector, 0) != MAGIC || u32_at(sector, 8) & FEATURE_BAD_BLOCKS != 0
}

// What a bitmap's header tells: it is stored before the superblock of its event count.
fn check_header(sector: &[u8; 512], freshest: &Superblock) -> Result<(), DataOfFault>
    ensures { OnOk result (HeaderTells freshest.now sector.now) }
{
    let Ok(header) = BitmapHeader::decode(&array_at(sector, 0)) else {
        return Ok(());
    };
    if header.uuid != freshest.set_uuid {
        return Err(DataOfFault::HasSuperblock);
    }
    if header.events < freshest.events.saturating_sub(1)
        || header.events > freshest.events.saturating_add(1)
    {
        return Err(DataOfFault::NumberNotInSync);
    }
    Ok(())
}
